//! Worked rows on one shard and on two, and the first line at which a shard is full.

ghost use Rattle.std.specs.Prelude.{◌≡◌, IfOk, length};

use crate::batches::{GetRow, PutRow, Wanted, check_batch, gets_of, puts_of};
use key_types::{ByteList, NoMemory};
use load_work::{LoadError, law_new_have_learnt, run_batch};
use outside::OpenGate;
use shard_table::{FrozenTable, KeyList, ShardTable};
use std::alloc::Global;
use std::process::Abort;
use std::test::Fail;
use std::thread::Threads;

/// The key of int 1, and of int 20, without a row's components, and the string of the partition of int 10.
const ONE: &[u8; 7] = b"\x40\x80\x00\x00\x01\x38\x38";

const TWENTY: &[u8; 7] = b"\x40\x80\x00\x00\x14\x38\x38";

const TEN: &[u8; 6] = b"\x40\x80\x00\x00\x0a\x38";

/// A list of one bound.
fn one_bound(alloc: Global, bytes: &[u8]) -> Result<KeyList, NoMemory>
    ensures { IfOk result (λ bounds. length bounds ≡ 1) }
{
    let mut bounds = KeyList::new(alloc);
    let mut bound = ByteList::new(alloc);
    bound.extend(bytes)?;
    bounds.push(bound)?;
    Ok(bounds)
}

/// The shards list these keys with their values, one shard's behind another's, and no more.
fn check_entries(
    rt: &impl Abort,
    alloc: Global,
    table: &FrozenTable,
    wanted: &[PutRow],
) -> Result<(), NoMemory> {
    assert!(rt; table.shards() > 0);
    let mut cursor = table.cursor(alloc)?;
    let mut key = ByteList::new(alloc);
    let mut value = ByteList::new(alloc);
    'entries: for row in wanted {
        assert!(rt; table.next_into(&mut cursor, &mut key, &mut value)?);
        assert_eq!(rt; key.as_slice(), row.1);
        assert_eq!(rt; value.as_slice(), row.2);
    }
    assert!(rt; !table.next_into(&mut cursor, &mut key, &mut value)?);
    Ok(())
}

/// Two batches on two shards with two readers: puts, whose keys ascend, with gets beside them, and gets after them. The
/// shards then list the puts.
fn check_two<R: Abort + Threads + Sync>(
    rt: &R,
    alloc: Global,
    puts: &[PutRow],
    beside: &[GetRow],
    behind: &[GetRow],
    wanted: &[Wanted],
) -> Result<(), Fail> {
    let (table, mut workers) = ShardTable::new(alloc, one_bound(alloc, TEN)?, 1024, 2)?;
    law_new_have_learnt();
    let rows = puts;
    let puts = puts_of(rt, alloc, rows)?;
    let beside = gets_of(rt, alloc, 2, beside)?;
    let behind = gets_of(rt, alloc, 2, behind)?;
    let open = OpenGate;
    check_batch(
        rt,
        alloc,
        &table,
        &mut workers,
        &puts,
        &beside,
        &open,
        wanted,
    )?;
    check_batch(rt, alloc, &table, &mut workers, &[], &behind, &open, wanted)?;
    let frozen = table.close(alloc, workers)?;
    check_entries(rt, alloc, &frozen, rows)?;
    Ok(())
}

#[test]
fn gets_beside_puts_and_behind_them(rt: HostRuntime) -> Result<(), Fail> {
    let alloc = rt.alloc();
    check_two(
        &rt,
        alloc,
        &[(1, ONE, b"a"), (2, TWENTY, b"b")],
        &[],
        &[
            (4, 0, TWENTY),
            (5, 1, ONE),
            (6, 0, b"\x40\x80\x00\x00\x02\x38\x38"),
        ],
        &[(4, 1, Some(b"b")), (5, 1, Some(b"a")), (6, 1, None)],
    )?;
    check_two(
        &rt,
        alloc,
        &[(1, ONE, b"a")],
        &[(2, 0, ONE), (3, 1, TWENTY)],
        &[(5, 0, ONE), (6, 1, ONE)],
        &[
            (2, 0, None),
            (2, 1, Some(b"a")),
            (3, 0, None),
            (5, 1, Some(b"a")),
            (6, 1, Some(b"a")),
        ],
    )?;
    Ok(())
}

/// So many puts of 1,000 bytes, on both shards in turn where `both` is set.
fn full_line<R: Abort + Threads + Sync>(
    rt: &R,
    alloc: Global,
    lines: u32,
    both: bool,
) -> Result<Option<LoadError>, Fail> {
    let value = [b'x'; 1000];
    let (table, mut workers) = ShardTable::new(alloc, one_bound(alloc, TEN)?, 1024, 1)?;
    law_new_have_learnt();
    let mut rows = Vec::new(alloc);
    for line in 1..=lines {
        let key: &[u8] = if both && line % 2 == 0 { TWENTY } else { ONE };
        rows.push((line, key, value.as_slice()))?;
    }
    let puts = puts_of(rt, alloc, &rows)?;
    let made = run_batch(rt, alloc, &table, &mut workers, &puts, &[], &OpenGate);
    Ok(made.err())
}

#[test]
fn the_first_full_line(rt: HostRuntime) -> Result<(), Fail> {
    let rows = [
        (31, false, None),
        (40, false, Some(LoadError::Full(32))),
        (62, true, None),
        (66, true, Some(LoadError::Full(63))),
    ];
    for (lines, both, wanted) in rows {
        assert_eq!(rt; full_line(&rt, rt.alloc(), lines, both)?, wanted);
    }
    Ok(())
}
