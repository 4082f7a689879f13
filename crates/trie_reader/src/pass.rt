//! The loads of a find in the cells of one node. `find` calls it until the find ends.
//!
//! Each function is inlined: where a place is made its role is known, so a find chooses once for a node and not at each load.

ghost use Rattle.std.specs.Prelude.{◌≡◌, ℕ, length};
ghost use Rattle.trie_rule.specs.Seats.{ReadsFrom};
ghost use Rattle.trie_image.specs.declared.Place.{Place};
ghost use Rattle.trie_rule.specs.declared.views.ReadView.{ReadView};
ghost use Rattle.trie_reader.specs.Passing.{finding, PassesWords, CountsSteps, IsThere};

use outside::Steps;
use std::sync::ledger::Ledger;
use trie_image::{Advance, Place, Role};
use trie_rule::{ReadSeat, ShardCells};

/// The outcome of one load.
#[inline(always)]
fn load<L: Ledger>(
    cells: &ShardCells,
    seat: &mut ReadSeat,
    base: u64,
    place: Place,
    key: &[u8],
    steps: &mut Steps<L>,
) -> Advance
    requires own { ReadsFrom cells.now seat.old }
    requires at { seat.old.knows.reader ≡ finding base place key.now }
    ensures own { ReadsFrom cells.now seat.new }
    ensures passes { PassesWords seat.old.knows seat.new.knows base place key.now result }
    ensures steps { CountsSteps steps.old steps.new place (length key.now) result }
    ensures there { IsThere seat.new.knows base key.now result }
{
    cells.load_next(seat, place, key, steps)
}

/// The outcome of one load more, where the find goes on.
#[inline(always)]
fn load_more<L: Ledger>(
    cells: &ShardCells,
    seat: &mut ReadSeat,
    base: u64,
    outcome: Advance,
    key: &[u8],
    steps: &mut Steps<L>,
) -> Advance
    requires own { ReadsFrom cells.now seat.old }
    requires at { IsThere seat.old.knows base key.now outcome }
    ensures own { ReadsFrom cells.now seat.new }
    ensures passes { (r : ReadView) (from : Place) → PassesWords r seat.old.knows base from key.now outcome
        → PassesWords r seat.new.knows base from key.now result }
    ensures steps { (n : ℕ) (from : Place) → CountsSteps n steps.old from (length key.now) outcome
        → CountsSteps n steps.new from (length key.now) result }
    ensures there { IsThere seat.new.knows base key.now result }
{
    match outcome {
        Advance::On(next) => load(cells, seat, base, next, key, steps),
        _ => outcome,
    }
}

/// The outcome of all loads in a node's cells, or of one load elsewhere.
#[inline(always)]
pub(crate) fn pass<L: Ledger>(
    cells: &ShardCells,
    seat: &mut ReadSeat,
    base: u64,
    place: Place,
    key: &[u8],
    steps: &mut Steps<L>,
) -> Advance
    requires own { ReadsFrom cells.now seat.old }
    requires at { seat.old.knows.reader ≡ finding base place key.now }
    ensures own { ReadsFrom cells.now seat.new }
    ensures passes { PassesWords seat.old.knows seat.new.knows base place key.now result }
    ensures steps { CountsSteps steps.old steps.new place (length key.now) result }
    ensures there { IsThere seat.new.knows base key.now result }
{
    match place.role {
        Role::Chain => load(cells, seat, base, place, key, steps),
        Role::Order => {
            let slot = load(cells, seat, base, place, key, steps);
            load_more(cells, seat, base, slot, key, steps)
        }
        Role::Top => {
            let mid = load(cells, seat, base, place, key, steps);
            let leaf = load_more(cells, seat, base, mid, key, steps);
            load_more(cells, seat, base, leaf, key, steps)
        }
        _ => load(cells, seat, base, place, key, steps),
    }
}
