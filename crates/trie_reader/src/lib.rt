//! The readers of a shard: finds beside the writer, copies of values, and notes that they learn. Whoever holds a read seat
//! calls it.
//!
//! A find answers what the shard's map held after some of its puts, never fewer than the reader knew of. No call takes
//! memory or waits, and each makes a bounded number of steps.
#![tactic(auto)]

ghost use Rattle.std.specs.Prelude.{◌≡◌, ◌+◌, ◌*◌, ◌/◌, ◌≤◌, ◌<◌, ℕ, length, max, None, IfSome};
ghost use Rattle.trie_machine.specs.Events.{resting};
ghost use Rattle.trie_rule.specs.Rule.{IsStartOf};
ghost use Rattle.trie_rule.specs.Seats.{ReadsFrom, TellsOf};
ghost use Rattle.trie_reader.specs.Read.{HasAnswer, IsSeenRecord, KeepsWhatWasTold};

use outside::Steps;
use std::marker::Brand;
use std::sync::ledger::{Blank, Ledger};
use trie_image::walk::start;
use trie_image::{Advance, Rec};
use trie_rule::{Note, ReadSeat, ShardCells};

mod copy;
mod pass;

pub use copy::copy_into;
use pass::pass;

/// What a find answers: the record, and how many of the shard's puts the answer stands for.
#[derive(Clone, Copy, PartialEq, Eq, Debug)]
pub struct Found {
    pub hit: Option<Rec>,
    pub at: u64,
}

/// What the shard's map holds at the key after its first `at` puts; the seat's front becomes `at`.
///
/// The key has 1 to 2,048 bytes. A find makes at most four steps for each byte of the key, and five.
pub fn find<L: Ledger>(
    cells: &ShardCells,
    seat: &mut ReadSeat,
    key: &[u8],
    steps: &mut Steps<L>,
) -> Found
    requires own { ReadsFrom cells.now seat.old }
    requires idle { seat.old.knows.reader.find ≡ None }
    requires least { 1 ≤ length key.now }
    requires most { length key.now ≤ 2048 }
    ensures own { ReadsFrom cells.now seat.new }
    ensures reader { seat.new.knows.reader ≡ resting result.at }
    ensures seen { IsStartOf seat.old.knows.seen seat.new.knows.seen }
    ensures answer { HasAnswer seat.old.knows seat.new.knows key.now result.hit result.at }
    ensures hit { IfSome result.hit (IsSeenRecord seat.new.knows.seen) }
    ensures told { KeepsWhatWasTold seat.old.knows key.now result.hit result.at }
    ensures steps { steps.new ≤ steps.old + 4 * length key.now + 5 }
{
    // The number of cells bounds the first word that a find needs.
    let _ = cells.cells();
    let base = cells.load_front(seat, Some(key), steps);
    let mut place = start();
    'nodes: loop {
        match pass(cells, seat, base, place, key, steps) {
            Advance::On(next) => place = next,
            Advance::Found(rec) => {
                return Found {
                    hit: Some(rec),
                    at: base.max(rec.number as u64),
                };
            }
            Advance::Absent => {
                return Found {
                    hit: None,
                    at: base,
                };
            }
        }
    }
}

/// The reader comes to know all puts of which the note tells.
pub fn learn(cells: &ShardCells, seat: &mut ReadSeat, note: Note)
    requires own { ReadsFrom cells.now seat.old × TellsOf cells.now note }
    requires idle { seat.old.knows.reader.find ≡ None }
    ensures own { ReadsFrom cells.now seat.new }
    ensures reader { seat.new.knows.reader ≡ resting (max seat.old.knows.reader.front (length note.told)) }
    ensures seen { IsStartOf seat.old.knows.seen seat.new.knows.seen }
    ensures told { IsStartOf note.told seat.new.knows.seen }
{
    cells.join(note.into_seat(), seat);
}

/// The seat's new front, which counts at least the puts that are finished now.
pub fn front(cells: &ShardCells, seat: &mut ReadSeat) -> u64
    requires own { ReadsFrom cells.now seat.old }
    requires idle { seat.old.knows.reader.find ≡ None }
    ensures own { ReadsFrom cells.now seat.new }
    ensures reader { seat.new.knows.reader ≡ resting result }
    ensures least { seat.old.knows.reader.front ≤ result }
    ensures most { result ≤ length seat.new.knows.seen }
    ensures seen { IsStartOf seat.old.knows.seen seat.new.knows.seen }
{
    front_with::<Brand>(cells, seat, Blank::new(1))
}

/// The same with a counter of steps of its own.
fn front_with<L: Ledger>(cells: &ShardCells, seat: &mut ReadSeat, blank: Blank) -> u64
    requires name { blank.name ≡ L.name }
    requires parts { blank.parts ≡ L.parts }
    requires some { 0 < blank.parts }
    requires own { ReadsFrom cells.now seat.old }
    requires idle { seat.old.knows.reader.find ≡ None }
    ensures own { ReadsFrom cells.now seat.new }
    ensures reader { seat.new.knows.reader ≡ resting result }
    ensures least { seat.old.knows.reader.front ≤ result }
    ensures most { result ≤ length seat.new.knows.seen }
    ensures seen { IsStartOf seat.old.knows.seen seat.new.knows.seen }
{
    let mut steps: Steps<L> = Steps::new(blank);
    cells.load_front(seat, None, &mut steps)
}
