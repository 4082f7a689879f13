//! The writer of a shard: puts, the note of what was put, and the writer's own finds. Whoever holds a shard's write seat
//! calls it.
//!
//! A put reads what it needs of the image before its first store, and then makes its stores one by one, so readers may
//! walk beside it at any time. No call takes memory or waits.
#![tactic(auto)]

ghost use Rattle.std.specs.Prelude.{◌≡◌, ◌+◌, ◌-◌, ◌≤◌, ◌<◌, ℕ, length, None, Err, IfOk, IfErr, OnErr};
ghost use Rattle.trie_image.specs.Stores.{stores_of, cost};
ghost use Rattle.trie_image.specs.Puts.{HasLastPut};
ghost use Rattle.trie_rule.specs.Kinds.{MayPut};
ghost use Rattle.trie_rule.specs.Seats.{WritesTo, TellsOf};
ghost use Rattle.trie_writer.specs.Written.{put_view, MakesPut, LacksRoom, full_of};

use thiserror::Error;
use trie_image::Rec;
pub use trie_image::cost;
use trie_image::few_words::FewWords;
use trie_image::find::find;
use trie_image::plan::plan;
use trie_image::put_plan::PutPlan;
use trie_rule::{Note, ShardCells, WriteSeat};

mod own_words;

use own_words::OwnWords;

/// Why a put isn't made: the cells that are taken and the cells that it may take are more than there are.
#[derive(Clone, Copy, PartialEq, Eq, Debug, Error)]
#[error("{used} cells of {cells} are taken, and the put may take {cost}")]
pub struct Full {
    pub used: u32,
    pub cost: u32,
    pub cells: u32,
}

/// Puts the value under the key, as the shard's next put, and answers its number, counted from 1.
///
/// The key has 1 to 2,048 bytes and the value at most 65,535. The only refusal is want of cells, and nothing has changed
/// then.
pub fn put(cells: &ShardCells, seat: &mut WriteSeat, key: &[u8], value: &[u8]) -> Result<u64, Full>
    requires own { WritesTo cells.now seat.old }
    requires idle { seat.old.knows.begun ≡ None }
    requires least { 1 ≤ length key.now }
    requires most { length key.now ≤ 2048 }
    requires short { length value.now ≤ 65535 }
    ensures own { WritesTo cells.now seat.new }
    ensures made { IfOk result (λ n. MakesPut seat.old.knows seat.new.knows key.now value.now n) }
    ensures full { LacksRoom seat.old.knows key.now value.now → result ≡ Err (full_of seat.old.knows key.now value.now) }
    ensures only_full { IfErr result (λ _. LacksRoom seat.old.knows key.now value.now) }
    ensures refused { OnErr result (seat.new ≡ seat.old) }
{
    let used = seat.used();
    let cost = cost(key.len(), value.len());
    if used + cost > cells.cells() {
        return Err(Full {
            used,
            cost,
            cells: cells.cells(),
        });
    }
    let number = cells.load_own(seat, 0) + 1;
    let mut scratch = FewWords::new();
    let plan = plan(&OwnWords { cells }, seat, used, key, value, &mut scratch);
    make(cells, seat, key, value, &plan);
    Ok(number)
}

/// Makes the stores of a put, one after the other.
fn make(cells: &ShardCells, seat: &mut WriteSeat, key: &[u8], value: &[u8], plan: &PutPlan)
    requires own { WritesTo cells.now seat.old }
    requires idle { seat.old.knows.begun ≡ None }
    requires may { MayPut seat.old.knows key.now value.now None }
    requires stores { plan.now ≡ stores_of seat.old.knows.image seat.old.knows.used key.now value.now }
    ensures own { WritesTo cells.now seat.new }
    ensures put { seat.new.knows ≡ put_view seat.old.knows key.now value.now plan.now }
{
    let mut at = 0;
    'stores: while at < plan.len() {
        cells.store(seat, key, value, plan.store(at));
        at += 1;
    }
}

/// The number of cells that are taken, cell 0 among them.
pub fn used(seat: &WriteSeat) -> u32
    ensures { result ≡ seat.now.knows.used }
{
    seat.used()
}

/// A note of all puts that the writer has made.
pub fn tell(cells: &ShardCells, seat: &mut WriteSeat) -> Note
    requires own { WritesTo cells.now seat.old }
    requires idle { seat.old.knows.begun ≡ None }
    ensures same { seat.new ≡ seat.old }
    ensures own { TellsOf cells.now result }
    ensures told { result.told ≡ seat.old.knows.made }
{
    Note::of(cells.split(seat))
}

/// The record of the key's last put among those that the writer has made, or None where no put has the key.
///
/// The key has 1 to 2,048 bytes.
pub fn find_own(cells: &ShardCells, seat: &mut WriteSeat, key: &[u8]) -> Option<Rec>
    requires own { WritesTo cells.now seat.old }
    requires idle { seat.old.knows.begun ≡ None }
    requires least { 1 ≤ length key.now }
    requires most { length key.now ≤ 2048 }
    ensures same { seat.new ≡ seat.old }
    ensures found { HasLastPut seat.old.knows.made key.now result }
{
    seat.is_standing();
    find(&OwnWords { cells }, seat, key)
}
