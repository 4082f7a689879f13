//! The calls of a shard without puts, each once. Shards with puts are listed where there is a writer.

use crate::Frozen;
use key_types::ByteList;
use std::test::Fail;
use trie_rule::ShardCells;

#[test]
fn a_shard_without_puts_has_no_entry(rt: HostRuntime) -> Result<(), Fail> {
    let (cells, seat) = ShardCells::new(rt.alloc(), 1024)?;
    let frozen = Frozen::of(cells.close(seat));
    let mut cursor = frozen.cursor(rt.alloc(), b"")?;
    assert!(rt; frozen.next(rt.alloc(), &mut cursor)?.is_none());
    let mut from = frozen.cursor(rt.alloc(), b"\x40\x80")?;
    let mut key = ByteList::new(rt.alloc());
    let mut value = ByteList::new(rt.alloc());
    assert_eq!(rt; frozen.next_into(&mut from, &mut key, &mut value)?, false);
    Ok(())
}
