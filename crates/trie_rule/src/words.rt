//! The words of cells that are closed. What outlives a shard's writer and readers reads them.
//!
//! They are those of a well-formed image for the puts that were made.

ghost use Rattle.std.specs.Prelude.{◌≡◌, ◌<◌, ℕ, length, slice_index};
ghost use Rattle.trie_machine.specs.State.{HasImage};

use crate::seats::WriteSeat;
use atomic_table::Closed;
use std::alloc::Global;
use std::marker::Model;
use std::snapshot::Snapshot;

/// The words at the end. Contracts see them with the puts that they stand for.
pub struct Words {
    pub(crate) closed: Closed<(), Global>,
    pub(crate) last: Snapshot<WriteSeat>,
}

impl Model for Words {
    ghost use Rattle.std.specs.Prelude.{◌≡◌};
    ghost use Rattle.std.specs.Mem.Slots.{slots_items, slots_len, IsFull};
    ghost use Rattle.trie_machine.specs.State.{HasImage};
    ghost use Rattle.trie_rule.specs.Seats.{KeptWords};

    ghost Value = { KeptWords };

    ghost view = { λ w. record { words = slots_items w.closed.words; made = w.last.value.knows.made } };

    ghost invariant = { λ w. let k = w.last.value.knows in
        IsFull w.closed.words × (slots_len w.closed.slots ≡ 0)
        × HasImage (slots_items w.closed.words) k.cells k.used k.made };
}

impl Words {
    /// The word of this number.
    pub fn word(&self, at: u32) -> u64
        requires { at < length self.now.words }
        ensures { result ≡ slice_index self.now.words at }
    {
        self.closed.word(at as usize)
    }

    /// The words are those of a well-formed image for the puts. Nothing is done: they are kept so.
    pub fn is_standing(&self)
        ensures { (cells used : ℕ) × HasImage self.now.words cells used self.now.made }
    {
        let _ = &self.closed;
    }
}

impl Drop for Words {
    fn drop(self) {
        let Words { closed, last: _ } = self;
        closed.free();
    }
}
