//! The parts of the key string of an entry: the flush and whoever prints entries take it apart.
ghost use Rattle.std.specs.Prelude.{◌≡◌};
ghost use Rattle.key_types.specs.Columns.{columns_of};
ghost use Rattle.key_types.specs.Kinds.{kinds_of};
ghost use Rattle.key_decode.specs.Strings.{BeginsString};
ghost use Rattle.flush_walk.specs.Entries.{clustering_in, partition_in, row_at};

use key_decode::split_row;
use key_types::Schema;

/// The string of the partition, and that of the row within it, which is empty for a static value.
pub fn part<'k>(schema: &Schema, key: &'k [u8]) -> (&'k [u8], &'k [u8])
    requires { BeginsString (kinds_of schema.now.partition) key.now }
    ensures partition { result.0.now ≡ partition_in (columns_of schema.now) key.now }
    ensures clustering { result.1.now ≡ clustering_in (columns_of schema.now) key.now }
{
    key.split_at(split_row(schema, key))
}

/// How many rows an entry is, behind whose partition's string these bytes stand: one, or none for a static value.
pub fn row_at(clustering: &[u8]) -> u64
    ensures { result ≡ row_at clustering.now }
{
    u64::from(!clustering.is_empty())
}
