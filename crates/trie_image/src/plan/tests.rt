//! The stores of a first put, over a slice and over a seat that changes when it reads.

ghost use Rattle.std.specs.Prelude.{ℕ, List};

use super::{plan, plan_put};
use crate::few_words::FewWords;
use crate::source::WordSource;
use crate::{StoreKind, WordStore};
use std::marker::Model;
use std::test::Fail;

#[test]
fn the_first_put_takes_two_cells(rt: HostRuntime) -> Result<(), Fail> {
    let words = [0; 96];
    let stores = plan_put(rt.alloc(), &words, 1, b"a", b"")?;
    assert_eq!(rt; stores.len(), 10);
    let publish = WordStore {
        word: 1,
        value: 91,
        kind: StoreKind::Publish,
    };
    let finish = WordStore {
        word: 0,
        value: 1,
        kind: StoreKind::Finish,
    };
    assert_eq!(rt; stores.get(8).copied(), Some(publish));
    assert_eq!(rt; stores.get(9).copied(), Some(finish));
    Ok(())
}

/// A seat that counts its loads, which contracts don't see.
#[derive(Drop)]
struct CountingSeat {
    words: [u64; 96],
    loads: u64,
}

impl Model for CountingSeat {
    ghost use Rattle.std.specs.Prelude.{ℕ, List};

    ghost Value = { List ℕ };

    ghost view = { λ s. s.words };
}

struct Counting;

impl WordSource for Counting {
    type Seat = CountingSeat;

    ghost may = { λ from seat. Unit {0} };

    ghost image = { λ from seat. seat };

    fn word(&self, seat: &mut CountingSeat, at: usize) -> u64 {
        seat.loads = seat.loads.wrapping_add(1);
        seat.words.get(at).copied().unwrap_or(0)
    }
}

#[test]
fn a_plan_by_a_seat_that_counts(rt: HostRuntime) {
    let mut seat = CountingSeat {
        words: [0; 96],
        loads: 0,
    };
    let mut scratch = FewWords::new();
    let plan = plan(&Counting, &mut seat, 1, b"a", b"", &mut scratch);
    assert_eq!(rt; plan.len(), 10);
    assert_eq!(rt; plan.cells(), 2);
    assert_eq!(rt; seat.loads, 3);
}
