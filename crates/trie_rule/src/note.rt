//! What the writer tells readers: a note carries the puts that were made when it was written.
//!
//! Writers make notes and readers learn them. A note is a read seat that rests, with a front that counts all that it has
//! seen.

ghost use Rattle.std.specs.Prelude.{◌≡◌, length};
ghost use Rattle.trie_machine.specs.Events.{resting};

use crate::seats::ReadSeat;
use std::marker::Model;

/// A note. Contracts see it as the puts of which it tells, and which table it is of.
#[derive(Drop)]
pub struct Note {
    seat: ReadSeat,
}

impl Model for Note {
    ghost use Rattle.std.specs.Prelude.{◌≡◌, length};
    ghost use Rattle.trie_machine.specs.Events.{resting};
    ghost use Rattle.trie_rule.specs.Seats.{ToldAt};

    ghost Value = { ToldAt };

    ghost view = { λ n. record { table_id = n.seat.table_id; cells = n.seat.knows.cells; told = n.seat.knows.seen } };

    ghost invariant = { λ n. n.seat.knows.reader ≡ resting (length n.seat.knows.seen) };
}

impl Note {
    /// The note of a seat that rests and counts all that it has seen.
    pub fn of(seat: ReadSeat) -> Note
        requires { seat.knows.reader ≡ resting (length seat.knows.seen) }
        ensures told { result.told ≡ seat.knows.seen }
        ensures table { result.table_id ≡ seat.table_id }
        ensures cells { result.cells ≡ seat.knows.cells }
    {
        Note { seat }
    }

    /// The note's seat.
    pub fn into_seat(self) -> ReadSeat
        ensures seen { result.knows.seen ≡ self.told }
        ensures rests { result.knows.reader ≡ resting (length self.told) }
        ensures table { result.table_id ≡ self.table_id }
        ensures cells { result.knows.cells ≡ self.cells }
    {
        self.seat
    }
}
