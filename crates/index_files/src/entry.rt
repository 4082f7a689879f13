//! Entries of the row index: one stands behind the trie of each partition of two or more blocks. A partition's lookup
//! reads the entry that the partition index names, and goes on in its trie.
ghost use Rattle.std.specs.Prelude.{◌≡◌, ◌≤◌, length, IfSome, IsNone};
ghost use Rattle.key_types.specs.Columns.{columns_of};
ghost use Rattle.index_files.specs.Entries.{numbers_in, BeginsEntry, NoEntry};

use byteorder::{BigEndian, ByteOrder};
use key_decode::is_partition_string;
use key_types::Schema;
use length_prefix::counted;

/// How many bytes the numbers of an entry have.
const NUMBERS: usize = 20;

/// The numbers of an entry: where the partition stands in the data file, where the root of its trie stands in the row
/// index, and how many blocks it has.
#[derive(Clone, Copy, Debug, PartialEq, Eq)]
pub struct EntryNumbers {
    pub position: u64,
    pub root: u64,
    pub blocks: u32,
}

/// An entry where its bytes stand: the partition's string, and the numbers.
#[derive(Clone, Copy, Debug)]
pub struct EntryParts<'b> {
    pub partition: &'b [u8],
    pub numbers: EntryNumbers,
}

/// The numbers with which the bytes begin.
fn entry_numbers(bytes: &[u8]) -> EntryNumbers
    requires { 20 ≤ length bytes.now }
    ensures { result ≡ numbers_in bytes.now }
{
    EntryNumbers {
        position: BigEndian::read_u64(bytes),
        root: BigEndian::read_u64(&bytes[8..]),
        blocks: BigEndian::read_u32(&bytes[16..]),
    }
}

/// The entry with which the bytes begin, which stand at that position of the row index; `None` exactly where none
/// begins there.
pub fn entry_in<'b>(schema: &Schema, bytes: &'b [u8], at: u64) -> Option<EntryParts<'b>>
    ensures some { IfSome result (λ e. BeginsEntry (columns_of schema.now) bytes.now at e.partition.now e.numbers) }
    ensures none { IsNone result → NoEntry (columns_of schema.now) bytes.now at }
{
    let (partition, rest) = counted(bytes)?;
    if !is_partition_string(schema, partition) {
        return None;
    }
    if rest.len() < NUMBERS {
        return None;
    }
    let numbers = entry_numbers(rest);
    if numbers.root >= at {
        return None;
    }
    if numbers.blocks < 2 {
        return None;
    }
    Some(EntryParts { partition, numbers })
}
