//! The entry behind the trie of a partition: the writer makes it once the trie stands.
ghost use Rattle.std.specs.Prelude.{◌≡◌, ◌<◌, ◌++◌, ◌^◌, length, IfOk};
ghost use Rattle.byteorder.specs.Endian.{big_bytes};
ghost use Rattle.row_index.specs.File.{entry_bytes};

use byteorder::{BigEndian, ByteOrder};
use key_types::{ByteList, NoMemory};
use length_prefix::put_counted;
use std::alloc::Global;

/// The position in the data file, the root and the number of blocks, the high bytes first.
fn numbers(data_at: u64, root: u64, blocks: u32) -> [u8; 20]
    ensures { result ≡ big_bytes 8 data_at ++ (big_bytes 8 root ++ big_bytes 4 blocks) }
{
    let mut bytes = [0u8; 20];
    BigEndian::write_u64(&mut bytes, data_at);
    BigEndian::write_u64(&mut bytes[8..], root);
    BigEndian::write_u32(&mut bytes[16..], blocks);
    bytes
}

/// The entry of a partition: its string, its position in the data file, the root of its trie and how many blocks it
/// has.
#[tactic(auto, unfolding(crate::specs::File::entry_bytes))]
pub fn entry(
    alloc: Global,
    partition: &[u8],
    data_at: u64,
    root: u64,
    blocks: u32,
) -> Result<ByteList, NoMemory>
    requires { length partition.now < 2 ^ 16 }
    ensures { IfOk result (λ entry. entry ≡ entry_bytes partition.now data_at root blocks) }
{
    let mut out = ByteList::new(alloc);
    put_counted(&mut out, partition)?;
    out.extend(&numbers(data_at, root, blocks))?;
    Ok(out)
}
