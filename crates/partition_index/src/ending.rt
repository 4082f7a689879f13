//! What stands behind the trie: the first and the last string, and the footer.
ghost use Rattle.std.specs.Prelude.{◌≡◌, ◌<◌, ◌++◌, ◌^◌, length, IfOk, OnOk};
ghost use Rattle.partition_index.specs.File.{behind_trie, footer, in_eight};

use byteorder::{BigEndian, ByteOrder};
use key_types::{ByteList, NoMemory};
use length_prefix::put_counted;
use page_packer::Packed;
use std::alloc::Global;

/// Puts a number in eight bytes at the end of `out`, the high one first.
#[tactic(auto, unfolding(crate::specs::File::in_eight))]
fn put_number(out: &mut ByteList, n: u64) -> Result<(), NoMemory>
    ensures { OnOk result (out.new ≡ out.old ++ in_eight n) }
{
    let mut bytes = [0u8; 8];
    BigEndian::write_u64(&mut bytes, n);
    out.extend(&bytes)
}

/// Puts the footer of a trie of so many partitions at the end of `out`.
fn put_footer(out: &mut ByteList, trie: Packed, count: u64) -> Result<(), NoMemory>
    ensures { OnOk result (out.new ≡ out.old ++ footer trie.end count trie.root) }
{
    put_number(out, trie.end)?;
    put_number(out, count)?;
    put_number(out, trie.root)
}

/// What stands behind the trie.
pub fn ending(
    alloc: Global,
    first: &[u8],
    last: &[u8],
    trie: Packed,
    count: u64,
) -> Result<ByteList, NoMemory>
    requires first { length first.now < 2 ^ 16 }
    requires last { length last.now < 2 ^ 16 }
    ensures { IfOk result (λ end_. end_ ≡ behind_trie first.now last.now trie.end count trie.root) }
{
    let mut out = ByteList::new(alloc);
    put_counted(&mut out, first)?;
    put_counted(&mut out, last)?;
    put_footer(&mut out, trie, count)?;
    Ok(out)
}
