//! The writer's steps: its loads, the stores of a put, and a read seat that knows what was made.

ghost use Rattle.std.specs.Prelude.{◌≡◌, ◌+◌, ◌*◌, ◌/◌, ◌<◌, ◌≤◌, ◌^◌, [], length, slice_index, None};
ghost use Rattle.trie_machine.specs.Events.{resting};
ghost use Rattle.trie_rule.specs.declared.views.View.TheVariants.{Writes};
ghost use Rattle.trie_rule.specs.Rule.{write_view_of};
ghost use Rattle.trie_rule.specs.Kinds.{IsStanding, wrote};
ghost use Rattle.trie_rule.specs.Seats.{WritesTo, ReadsFrom, IsNext};
ghost use Rattle.trie_rule.specs.Fields.{IsStoreAt, Counts};

use crate::cells::ShardCells;
use crate::plays::{Asks, Looks, Shared, Stores};
use crate::seats::{ReadSeat, WriteSeat};
use crate::views::View;
use atomic_table::Seat;
use std::marker::Brand;
use trie_image::{StoreKind, WordStore};

/// The cells taken and the stores made, after a store of this kind.
fn count(kind: StoreKind, used: u32, done: u32) -> (u32, u32)
    requires used { used ≤ 2 ^ 22 }
    requires done { done < 2 ^ 25 }
    ensures { Counts kind used done result.0 result.1 }
{
    match kind {
        StoreKind::Prepare => (used, done + 1),
        StoreKind::Publish => (used + done / 4, done + 1),
        StoreKind::Finish => (used, 0),
    }
}

impl ShardCells {
    /// A word of the write seat's image.
    pub fn load_own(&self, seat: &mut WriteSeat, word: u32) -> u64
        requires own { WritesTo self.now seat.old }
        requires inside { word < 4 * self.now.cells }
        ensures same { seat.new ≡ seat.old }
        ensures word { result ≡ slice_index seat.old.knows.image word }
        ensures image { IsStanding seat.old.knows }
    {
        self.table
            .shared
            .load::<Looks>(&mut seat.seat, word as usize)
    }

    /// The step of a store, of the put that `A` names.
    fn store_as<A: Asks>(
        &self,
        seat: &mut Seat<(), View>,
        _key: &[u8],
        _value: &[u8],
        word: usize,
        stored: u64,
    )
        requires own { seat.old.table_id ≡ self.now.table_id }
        requires inside { word < 4 * self.now.cells }
        requires writer { seat.old.me ≡ (Writes (write_view_of seat.old.me.0), []) }
        requires next { IsStoreAt (write_view_of seat.old.me.0) A.put_key A.put_value word stored }
        ensures same { (seat.new.table_id ≡ seat.old.table_id) × (seat.new.id ≡ seat.old.id) }
        ensures wrote { seat.new.me ≡ (Writes (wrote (write_view_of seat.old.me.0) A.put_key A.put_value), []) }
    {
        self.table.shared.store::<Stores<A>>(seat, word, stored)
    }

    /// Makes the next store of the put of this key and value, which begins with it where none is under way.
    pub fn store(&self, seat: &mut WriteSeat, key: &[u8], value: &[u8], step: WordStore)
        requires own { WritesTo self.now seat.old }
        requires next { IsNext seat.old.knows key.now value.now step }
        ensures own { WritesTo self.now seat.new }
        ensures wrote { seat.new.knows ≡ wrote seat.old.knows key.now value.now }
    {
        let (used, done) = count(step.kind, seat.used, seat.done);
        self.store_as::<Brand>(&mut seat.seat, key, value, step.word as usize, step.value);
        seat.used = used;
        seat.done = done;
    }

    /// A read seat that has seen all puts that are made.
    pub fn split(&self, seat: &mut WriteSeat) -> ReadSeat
        requires own { WritesTo self.now seat.old }
        requires idle { seat.old.knows.begun ≡ None }
        ensures same { seat.new ≡ seat.old }
        ensures own { ReadsFrom self.now result }
        ensures seen { result.knows.seen ≡ seat.old.knows.made }
        ensures reader { result.knows.reader ≡ resting (length seat.old.knows.made) }
    {
        let table = &self.table.shared;
        let front = table.load::<Looks>(&mut seat.seat, 0);
        let seat = table.split_seat::<Shared>(&mut seat.seat);
        ReadSeat { seat, front }
    }
}
