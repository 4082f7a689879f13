//! The readers' steps: loads, and two seats that become one.

ghost use Rattle.std.specs.Prelude.{◌≡◌, ◌+◌, ◌*◌, ◌<◌, ◌≤◌, [], max, Some, None};
ghost use Rattle.trie_machine.specs.Events.{resting};
ghost use Rattle.trie_rule.specs.declared.views.View.TheVariants.{Reads};
ghost use Rattle.trie_rule.specs.Rule.{IsStartOf, read_view_of};
ghost use Rattle.trie_rule.specs.Kinds.{MayFind, HasValuesBelow, IsValueWord};
ghost use Rattle.trie_rule.specs.Seats.{ReadsFrom, key_asked, RaisesFront, IsFindAt, FindMoves};

use crate::cells::ShardCells;
use crate::plays::{Asks, FrontLoads, Shared, WordLoads};
use crate::seats::ReadSeat;
use crate::views::View;
use atomic_table::Seat;
use outside::Steps;
use std::marker::Brand;
use std::sync::ledger::Ledger;
use trie_image::walk::{advance, next_word};
use trie_image::{Advance, Place};

impl ShardCells {
    /// The step of a load of word 0, with the key that `A` names.
    fn front_as<A: Asks>(&self, seat: &mut Seat<(), View>, _key: Option<&[u8]>) -> u64
        requires own { seat.old.table_id ≡ self.now.table_id }
        requires reader { seat.old.me ≡ (Reads (read_view_of seat.old.me.0), []) }
        requires rests { (read_view_of seat.old.me.0).reader.find ≡ None }
        requires may { MayFind A.find_key }
        ensures same { (seat.new.table_id ≡ seat.old.table_id) × (seat.new.id ≡ seat.old.id) }
        ensures cells { 1024 ≤ self.now.cells }
        ensures reader { seat.new.me ≡ (Reads (read_view_of seat.new.me.0), []) }
        ensures values { HasValuesBelow (4 * (read_view_of seat.old.me.0).cells) (read_view_of seat.new.me.0).seen }
        ensures front { let r = read_view_of seat.old.me.0 in
            RaisesFront r (read_view_of seat.new.me.0) A.find_key (max r.reader.front result) }
    {
        self.table.shared.load::<FrontLoads<A>>(seat, 0)
    }

    /// Raises the seat's front to the number of finished puts, which word 0 has, and answers the front. Where there is a
    /// key, a find of it begins. It is one step.
    pub fn load_front<L: Ledger>(
        &self,
        seat: &mut ReadSeat,
        key: Option<&[u8]>,
        steps: &mut Steps<L>,
    ) -> u64
        requires own { ReadsFrom self.now seat.old }
        requires idle { seat.old.knows.reader.find ≡ None }
        requires key { MayFind (key_asked key) }
        ensures own { ReadsFrom self.now seat.new }
        ensures front { RaisesFront seat.old.knows seat.new.knows (key_asked key.entry) result }
        ensures step { steps.new ≡ steps.old + 1 }
    {
        steps.tick();
        let word = self.front_as::<Brand>(&mut seat.seat, key);
        let base = seat.front.max(word);
        seat.front = base;
        base
    }

    /// Loads a word while no find is under way. It is one step.
    pub fn load<L: Ledger>(&self, seat: &mut ReadSeat, word: u32, steps: &mut Steps<L>) -> u64
        requires own { ReadsFrom self.now seat.old }
        requires inside { word < 4 * self.now.cells }
        requires idle { seat.old.knows.reader.find ≡ None }
        ensures own { ReadsFrom self.now seat.new }
        ensures same { seat.new.knows ≡ seat.old.knows }
        ensures value { IsValueWord seat.old.knows.seen word result }
        ensures step { steps.new ≡ steps.old + 1 }
    {
        steps.tick();
        self.table
            .shared
            .load::<WordLoads>(&mut seat.seat, word as usize)
    }

    /// Loads the word that the find under way needs at its place, and moves the find: what the word leads to. It is one step.
    #[inline(always)]
    pub fn load_next<L: Ledger>(
        &self,
        seat: &mut ReadSeat,
        place: Place,
        key: &[u8],
        steps: &mut Steps<L>,
    ) -> Advance
        requires own { ReadsFrom self.now seat.old }
        requires find { IsFindAt seat.old.knows.reader.find key.now place }
        ensures own { ReadsFrom self.now seat.new }
        ensures moves { FindMoves seat.old.knows.reader.find seat.old.knows result seat.new.knows }
        ensures step { steps.new ≡ steps.old + 1 }
    {
        steps.tick();
        // The number of cells bounds the word that the place needs.
        let _ = self.cells();
        let front = seat.front;
        let word = next_word(&place) as usize;
        let found = self.table.shared.load::<WordLoads>(&mut seat.seat, word);
        match advance(&place, found, key) {
            Advance::On(next) => Advance::On(next),
            Advance::Found(rec) => {
                seat.front = front.max(rec.number as u64);
                Advance::Found(rec)
            }
            Advance::Absent => Advance::Absent,
        }
    }

    /// The seat `into` comes to know what both did, with the greater front; the other ends.
    pub fn join(&self, from: ReadSeat, into: &mut ReadSeat)
        requires own { ReadsFrom self.now from × ReadsFrom self.now into.old }
        requires idle { (from.knows.reader.find ≡ None) × (into.old.knows.reader.find ≡ None) }
        ensures own { ReadsFrom self.now into.new }
        ensures reader { into.new.knows.reader ≡ resting (max into.old.knows.reader.front from.knows.reader.front) }
        ensures seen { IsStartOf into.old.knows.seen into.new.knows.seen }
        ensures told { IsStartOf from.knows.seen into.new.knows.seen }
    {
        let ReadSeat { seat, front } = from;
        let table = &self.table.shared;
        table.join_seat::<Shared>(&mut into.seat, seat);
        // The rule tells only at a step that loads: this one changes nothing, and tells that both lists start what is
        // seen.
        table.load::<WordLoads>(&mut into.seat, 0);
        into.front = into.front.max(front);
    }
}
