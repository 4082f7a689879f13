//! A gate that lets two threads go on in turn only.

use crate::batches::{check_batch, gets_of, puts_of};
use key_types::NoMemory;
use load_work::law_new_have_learnt;
use outside::Gate;
use shard_table::{KeyList, ShardTable};
use std::sync::atomic::{AtomicU64, Ordering};
use std::test::Fail;

const KEY: &[u8; 7] = b"\x40\x80\x00\x00\x01\x38\x38";

/// The read of line 2 waits for the put of line 3, and this put for the read of line 4. A gate that waits too long
/// counts as late.
#[derive(Drop)]
struct Turns {
    third: AtomicU64,
    fourth: AtomicU64,
    late: AtomicU64,
}

impl Turns {
    fn wait_for(&self, announced: &AtomicU64) {
        for _ in 0..100_000_000u32 {
            if announced.load(Ordering::SeqCst) != 0 {
                return;
            }
        }
        self.late.store(1, Ordering::SeqCst);
    }
}

impl Gate for Turns {
    fn before_put(&self, _shard: u32, line: u32) {
        if line == 3 {
            self.third.store(1, Ordering::SeqCst);
            self.wait_for(&self.fourth);
        }
    }

    fn before_read(&self, _reader: u32, line: u32) {
        if line == 2 {
            self.wait_for(&self.third);
        }
        if line == 4 {
            self.fourth.store(1, Ordering::SeqCst);
        }
    }
}

#[test]
fn a_gate_that_holds_both_threads(rt: HostRuntime) -> Result<(), Fail> {
    let alloc = rt.alloc();
    let (table, mut workers) = ShardTable::new(alloc, KeyList::new(alloc), 1024, 1)?;
    law_new_have_learnt();
    let turns = Turns {
        third: AtomicU64::new(0),
        fourth: AtomicU64::new(0),
        late: AtomicU64::new(0),
    };
    let puts = puts_of(&rt, alloc, &[(1, KEY, b"a"), (3, KEY, b"b")])?;
    let gets = gets_of(&rt, alloc, 1, &[(2, 0, KEY), (4, 0, KEY)])?;
    let wanted = [
        (2, 1, Some(b"a".as_slice())),
        (4, 1, Some(b"a".as_slice())),
        (4, 2, Some(b"b".as_slice())),
    ];
    check_batch(
        &rt,
        alloc,
        &table,
        &mut workers,
        &puts,
        &gets,
        &turns,
        &wanted,
    )?;
    assert_eq!(rt; turns.late.load(Ordering::SeqCst), 0);
    Ok(())
}
