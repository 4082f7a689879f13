//! The two kinds of seat. A seat belongs to the cells that made it; `cells` makes their steps.

ghost use Rattle.std.specs.Prelude.{◌≡◌, ◌*◌, ◌≤◌, ◌^◌};
ghost use Rattle.trie_rule.specs.Kinds.{IsStanding, HasValuesBelow};

use crate::views::View;
use atomic_table::Seat;
use std::marker::Model;

/// The writer's seat, of which each table has one. Contracts see it as what it knows, and which table it is of.
///
/// It holds the number of cells that are taken, and how many stores of the put under way are made.
#[derive(Drop)]
pub struct WriteSeat {
    pub(crate) seat: Seat<(), View>,
    pub(crate) used: u32,
    pub(crate) done: u32,
}

impl Model for WriteSeat {
    ghost use Rattle.trie_rule.specs.Seats.{WriterAt};
    ghost use Rattle.trie_rule.specs.Fields.{writer_at, HoldsWriter};

    ghost Value = { WriterAt };

    ghost view = { λ s. writer_at s.seat };

    ghost invariant = { λ s. HoldsWriter s.seat s.used s.done };
}

impl WriteSeat {
    /// The number of cells that are taken, cell 0 among them.
    pub fn used(&self) -> u32
        ensures is { result ≡ self.now.knows.used }
        ensures small { result ≤ 2 ^ 22 }
    {
        self.used
    }

    /// The words are those of a well-formed image for the writer's puts, and word 0 counts them where no put is under
    /// way. Nothing is done: the seat keeps it.
    pub fn is_standing(&self)
        ensures { IsStanding self.now.knows }
    {
        let _ = &self.seat;
    }
}

/// A reader's seat, of which a table has any number. Contracts see it as what it knows, and which table it is of.
///
/// It holds its reader's front. Where a find under way stands is what it knows, and its callers hold it.
#[derive(Drop)]
pub struct ReadSeat {
    pub(crate) seat: Seat<(), View>,
    pub(crate) front: u64,
}

impl Model for ReadSeat {
    ghost use Rattle.trie_rule.specs.Seats.{ReaderAt};
    ghost use Rattle.trie_rule.specs.Fields.{reader_at, HoldsReader};

    ghost Value = { ReaderAt };

    ghost view = { λ s. reader_at s.seat };

    ghost invariant = { λ s. HoldsReader s.seat s.front };
}

impl ReadSeat {
    /// The values of the puts that the reader has seen lie in the table. Nothing is done: the seat keeps it.
    pub fn has_values(&self)
        ensures { HasValuesBelow (4 * self.now.knows.cells) self.now.knows.seen }
    {
        let _ = &self.seat;
    }
}
