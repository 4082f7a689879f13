//! Which bytes are values, and rows. The parsers of this crate call these.
ghost use Rattle.std.specs.Prelude.{◌↔◌, IsTrue};
ghost use Rattle.key_types.specs.Columns.{columns_of, IsValueOf};
ghost use Rattle.data_file.specs.Listing.{IsRow};

use key_decode::is_clustering_string;
use key_types::{LONGEST_VALUE, Schema, ValueType, is_text};

/// Whether the bytes are a value of the type.
pub fn is_value(kind: ValueType, bytes: &[u8]) -> bool
    ensures { IsTrue result ↔ IsValueOf kind bytes.now }
{
    match kind {
        ValueType::Text => bytes.len() <= LONGEST_VALUE && is_text(bytes),
        ValueType::Blob => bytes.len() <= LONGEST_VALUE,
    }
}

/// Whether these are the clustering and the value of a row.
pub fn is_row(schema: &Schema, clustering: &[u8], value: &[u8]) -> bool
    ensures { IsTrue result ↔ IsRow (columns_of schema.now) clustering.now value.now }
{
    is_clustering_string(schema, clustering) && is_value(schema.value, value)
}
