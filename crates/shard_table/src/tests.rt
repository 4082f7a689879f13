//! Worked rows: shards listed in the order of their keys, and a table without puts.

ghost use Rattle.std.specs.Prelude.{◌≡◌, IfOk, length};

use crate::{KeyList, ShardTable, TableError};
use key_types::{ByteList, NoMemory};
use shard_freeze::Frozen;
use std::alloc::Global;
use std::process::Abort;
use std::test::Fail;
use trie_rule::ShardCells;
use trie_writer::put;

type Pair<'a> = (&'a [u8], &'a [u8]);

/// A shard with these puts.
fn freeze(rt: &impl Abort, alloc: Global, puts: &[Pair]) -> Result<Frozen, NoMemory> {
    let (cells, mut seat) = ShardCells::new(alloc, 1024)?;
    for (key, value) in puts {
        assert!(rt; !key.is_empty() && key.len() <= 2048 && value.len() <= 65_535);
        assert!(rt; put(&cells, &mut seat, key, value).is_ok());
    }
    Ok(Frozen::of(cells.close(seat)))
}

/// The shard lists these entries from the start on, and no more.
fn check_list(
    rt: &impl Abort,
    alloc: Global,
    frozen: &Frozen,
    from: &[u8],
    wanted: &[Pair],
) -> Result<(), NoMemory> {
    let mut cursor = frozen.cursor(alloc, from)?;
    let mut key = ByteList::new(alloc);
    let mut value = ByteList::new(alloc);
    for pair in wanted {
        assert!(rt; frozen.next_into(&mut cursor, &mut key, &mut value)?);
        assert_eq!(rt; key.as_slice(), pair.0);
        assert_eq!(rt; value.as_slice(), pair.1);
    }
    assert!(rt; frozen.next(alloc, &mut cursor)?.is_none());
    Ok(())
}

#[test]
fn seven_keys_from_several_starts(rt: HostRuntime) -> Result<(), Fail> {
    let alloc = rt.alloc();
    let rows: [Pair; 7] = [
        (b"\x40\x80\x38\x38", b""),
        (b"\x40\x81\x38\x38", b"1"),
        (b"\x40\x82\x38\x38", b"12345678"),
        (b"\x40\x83\x38\x38", b"123456789abcdef"),
        (b"\x40\x84\x38\x38", b"4"),
        (b"\x40\x85\x38\x38", b"5"),
        (b"\x40\x86\x38\x38", b"6"),
    ];
    let frozen = freeze(&rt, alloc, &rows)?;
    check_list(&rt, alloc, &frozen, b"", &rows)?;
    check_list(&rt, alloc, &frozen, b"\x40\x83\x38\x38", &rows[3..])?;
    check_list(&rt, alloc, &frozen, b"\x40\x83", &rows[3..])?;
    check_list(&rt, alloc, &frozen, b"\x40\x83\x38\x38\x00", &rows[4..])?;
    check_list(&rt, alloc, &frozen, b"\x40\x86\x39", &rows[7..])?;
    Ok(())
}

#[test]
fn children_of_a_split_node(rt: HostRuntime) -> Result<(), Fail> {
    let alloc = rt.alloc();
    let puts: [Pair; 9] = [
        (b"\x40\x00", b"a"),
        (b"\x40\x40", b"b"),
        (b"\x40\x80", b"e"),
        (b"\x40\xa0", b"f"),
        (b"\x40\xc0", b"g"),
        (b"\x40\xe0", b"h"),
        (b"\x40\xff", b"i"),
        (b"\x40\x41", b"c"),
        (b"\x40\x48", b"d"),
    ];
    let wanted: [Pair; 9] = [
        (b"\x40\x00", b"a"),
        (b"\x40\x40", b"b"),
        (b"\x40\x41", b"c"),
        (b"\x40\x48", b"d"),
        (b"\x40\x80", b"e"),
        (b"\x40\xa0", b"f"),
        (b"\x40\xc0", b"g"),
        (b"\x40\xe0", b"h"),
        (b"\x40\xff", b"i"),
    ];
    let frozen = freeze(&rt, alloc, &puts)?;
    check_list(&rt, alloc, &frozen, b"\x40", &wanted)?;
    check_list(&rt, alloc, &frozen, b"\x40\x42", &wanted[3..])?;
    Ok(())
}

#[test]
fn keys_that_begin_others_and_a_replaced_value(rt: HostRuntime) -> Result<(), Fail> {
    let alloc = rt.alloc();
    let puts: [Pair; 4] = [(b"abc", b"1"), (b"ab", b"2"), (b"a", b"3"), (b"a", b"4")];
    let wanted: [Pair; 3] = [(b"a", b"4"), (b"ab", b"2"), (b"abc", b"1")];
    let frozen = freeze(&rt, alloc, &puts)?;
    check_list(&rt, alloc, &frozen, b"", &wanted)?;
    check_list(&rt, alloc, &frozen, b"ab", &wanted[1..])?;
    check_list(&rt, alloc, &frozen, b"aba", &wanted[2..])?;
    Ok(())
}

/// A list of two bounds.
fn two_bounds(alloc: Global, first: &[u8], second: &[u8]) -> Result<KeyList, NoMemory>
    ensures { IfOk result (λ bounds. length bounds ≡ 2) }
{
    let mut bounds = KeyList::new(alloc);
    let mut bound = ByteList::new(alloc);
    bound.extend(first)?;
    bounds.push(bound)?;
    let mut bound = ByteList::new(alloc);
    bound.extend(second)?;
    bounds.push(bound)?;
    Ok(bounds)
}

#[test]
fn a_table_of_three_shards(rt: HostRuntime) -> Result<(), Fail> {
    let alloc = rt.alloc();
    let bounds = two_bounds(alloc, b"\x40\x8a", b"\x40\x94")?;
    let (table, workers) = ShardTable::new(alloc, bounds, 1024, 2)?;
    assert_eq!(rt; table.shard_of(b"\x40\x89\xff"), 0);
    assert_eq!(rt; table.shard_of(b"\x40\x8a"), 1);
    assert_eq!(rt; table.shard_of(b"\x40\x94\x00"), 2);
    assert_eq!(rt; table.cells(2).cells(), 1024);
    assert_eq!(rt; workers.writers.len(), 3);
    assert_eq!(rt; workers.readers.len(), 2);
    let frozen = table.close(alloc, workers)?;
    assert_eq!(rt; frozen.shards(), 3);
    check_list(&rt, alloc, frozen.shard(1), b"", &[])?;
    Ok(())
}

#[test]
fn a_bound_that_is_no_greater(rt: HostRuntime) -> Result<(), Fail> {
    let bounds = two_bounds(rt.alloc(), b"\x40\x94", b"\x40\x94")?;
    let made = ShardTable::new(rt.alloc(), bounds, 1024, 1);
    assert_eq!(rt; made.err(), Some(TableError::BadBounds(1)));
    Ok(())
}
