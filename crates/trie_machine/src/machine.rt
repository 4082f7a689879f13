//! The machine at run time: it keeps its words, puts and readers, and makes one event after the other.
//!
//! At any time its state is one of `IsMachine`. `writer` and `readers` have one method for each event; `apply` chooses among
//! them and counts.

ghost use Rattle.std.specs.Prelude.{◌≡◌, ◌≢◌, ℕ, ◌+◌, ◌*◌, ◌<◌, ◌≤◌, ◌^◌, List, [], ◌∷◌, length, max, slice_get, slice_index, slice_set, MatchOption, IsTrue, ◌↔◌, IfOk, OnOk, OnErr, Some, None, Err, IfErr, min, ◌/◌, ◌++◌};
ghost use Rattle.std.specs.Bool.{OnTrue, OnFalse};
ghost use Rattle.std.specs.Option.{option_copied};
ghost use mathlib.Core.Option.{some};
ghost use lib.ListN.{get_elem?};
ghost use Rattle.trie_image.specs.declared.WordStore.{WordStore};
ghost use Rattle.trie_image.specs.declared.Advance.{Advance};
ghost use Rattle.trie_machine.specs.declared.Find.{Find};
ghost use Rattle.trie_machine.specs.declared.Reader.{Reader};
ghost use Rattle.trie_machine.specs.declared.Outcome.{Outcome};
ghost use Rattle.trie_machine.specs.declared.Begun.{Begun};
ghost use Rattle.trie_machine.specs.State.{MachineState, IsMachine};
ghost use Rattle.trie_machine.specs.Events.{Begins, HasNext, with_done, Prepares, Publishes, Finishes, IsResting, HasFind, Fronts, loaded, reader_after, resting, Loads, HasWord, Copies, value_word_at, Splits, Joins};
ghost use Rattle.trie_image.specs.Puts.{IsKey};
ghost use Rattle.trie_image.specs.Stores.{stores_of, cost, CanPut};
ghost use Rattle.trie_image.specs.Publish.{put_at};
ghost use Rattle.trie_machine.specs.Laws.{opening};
ghost use Rattle.trie_machine.specs.Counted.{Counted, busy, full, HasCapacity, LacksCapacity, Leads, IsLegal};

use crate::writing::{Held, Writing, writing_of};
use crate::{Bad, BeginError, Event, Outcome, Reader};
use key_types::NoMemory;
use std::alloc::Global;
use std::marker::Model;
use trie_image::cost;

mod readers;
mod writer;

/// The machine. Contracts see it as its state and the number of events that were made.
#[derive(Debug, Drop)]
pub struct Machine {
    cells: u32,
    words: Vec<u64>,
    used: u32,
    puts: Vec<Held>,
    begun: Option<Writing>,
    readers: Vec<Option<Reader>>,
    events: u64,
}

impl Model for Machine {
    ghost use Rattle.trie_machine.specs.State.{IsMachine};
    ghost use Rattle.trie_machine.specs.Counted.{Counted};

    ghost Value = { Counted };

    ghost view = { λ m. record { state = record { cells = m.cells; words = m.words.items; used = m.used; puts = m.puts.items; begun = m.begun; readers = m.readers.items }; events = m.events } };

    ghost invariant = { λ m. IsMachine record { cells = m.cells; words = m.words.items; used = m.used; puts = m.puts.items; begun = m.begun; readers = m.readers.items } };
}

impl Machine {
    /// The machine of so many cells whose words are 0, with so many readers, numbered from 0.
    pub fn new(alloc: Global, cells: u32, readers: u32) -> Result<Machine, NoMemory>
        requires least { 1024 ≤ cells }
        requires most { cells ≤ 2 ^ 22 }
        ensures { IfOk result (λ m. (m.state ≡ opening cells readers) × (m.events ≡ 0)) }
    {
        let words = vec![in alloc; 0u64; 4 * cells as usize]?;
        let mut seats = Vec::new(alloc);
        for _ in 0..readers {
            seats.push(Some(Reader {
                front: 0,
                find: None,
            }))?;
        }
        Ok(Machine {
            cells,
            words,
            used: 1,
            puts: Vec::new(alloc),
            begun: None,
            readers: seats,
            events: 0,
        })
    }

    /// Hands the writer its next put. No word changes, and it is no event.
    pub fn begin(&mut self, alloc: Global, key: &[u8], value: &[u8]) -> Result<(), BeginError>
        requires least { 1 ≤ length key.now }
        requires most { length key.now ≤ 2048 }
        requires short { length value.now ≤ 65535 }
        ensures begins { OnOk result (Begins self.old.state self.new.state key.now value.now) }
        ensures err { OnErr result (self.new ≡ self.old) }
        ensures busy { self.old.state.begun ≢ None → result ≡ Err (busy self.old.state) }
        ensures full { self.old.state.begun ≡ None → LacksCapacity self.old.state key.now value.now
            → result ≡ Err (full self.old.state key.now value.now) }
        ensures memory { self.old.state.begun ≡ None → HasCapacity self.old.state key.now value.now
            → IfErr result (λ e. e ≡ BeginError.NoMemory) }
        ensures events { self.new.events ≡ self.old.events }
    {
        if self.begun.is_some() {
            return Err(BeginError::Busy(self.words[0] + 1));
        }
        let cost = cost(key.len(), value.len());
        if self.used + cost > self.cells {
            return Err(BeginError::Full {
                used: self.used,
                cost,
                cells: self.cells,
            });
        }
        let Ok(writing) = writing_of(alloc, &self.words, self.used, key, value) else {
            return Err(BeginError::NoMemory);
        };
        self.begun = Some(writing);
        Ok(())
    }

    /// The state is one of the machine.
    pub fn is_machine(&self)
        ensures { IsMachine self.now.state }
    {
        let _ = &self.words;
    }

    /// The number of puts that were published.
    fn count(&self) -> u64
        ensures { result ≡ length self.now.state.puts }
    {
        self.puts.len() as u64
    }

    /// Makes the event where the machine has it, and tells its answer.
    fn make(&mut self, alloc: Global, event: Event) -> Result<Option<Outcome>, NoMemory>
        ensures made { IfOk result (λ r. (o : Outcome) → r ≡ Some o → Leads event self.old.state self.new.state o) }
        ensures legal { IfOk result (λ r. (o : Outcome) → r ≡ Some o → IsLegal event self.old.state o) }
        ensures refused { IfOk result (λ r. r ≡ None → (m' : MachineState) (o : Outcome) → Leads event self.old.state m' o → ⊥) }
        ensures same { IfOk result (λ r. r ≡ None → self.new ≡ self.old) }
        ensures err { OnErr result (self.new ≡ self.old) }
        ensures events { self.new.events ≡ self.old.events }
    {
        match event {
            Event::Prepare => {
                let made = self.prepare();
                Ok(if made { Some(Outcome::Quiet) } else { None })
            }
            Event::Publish => {
                let made = self.publish(alloc)?;
                let number = self.count();
                Ok(if made {
                    Some(Outcome::Published(number))
                } else {
                    None
                })
            }
            Event::Finish => {
                let made = self.finish();
                let number = self.count();
                Ok(if made {
                    Some(Outcome::Finished(number))
                } else {
                    None
                })
            }
            Event::Front { reader, key } => match self.front(reader, key) {
                Some(front) => Ok(Some(Outcome::Front(front))),
                None => Ok(None),
            },
            Event::Load { reader } => Ok(self.load(reader)),
            Event::Copy { reader, rec, word } => match self.copy(reader, rec, word) {
                Some(loaded) => Ok(Some(Outcome::Word(loaded))),
                None => Ok(None),
            },
            Event::Split { from } => match self.split(from)? {
                Some(number) => Ok(Some(Outcome::Reader(number))),
                None => Ok(None),
            },
            Event::Join { from, into } => {
                let made = self.join(from, into);
                Ok(if made { Some(Outcome::Quiet) } else { None })
            }
        }
    }

    /// Makes the event where the machine has it. It has none that isn't enabled.
    pub fn apply(&mut self, alloc: Global, event: Event) -> Result<Outcome, Bad>
        ensures made { IfOk result (λ o. Leads event self.old.state self.new.state o) }
        ensures legal { IfOk result (λ o. IsLegal event self.old.state o) }
        ensures counted { OnOk result (self.new.events ≡ min (self.old.events + 1) 18446744073709551615) }
        ensures err { OnErr result (self.new ≡ self.old) }
        ensures refused { (k : ℕ) → result ≡ Err (Bad.NotEnabled k) → (m' : MachineState) (o : Outcome) → Leads event self.old.state m' o → ⊥ }
        ensures number { (k : ℕ) → result ≡ Err (Bad.NotEnabled k) → k ≡ self.old.events }
    {
        let Ok(made) = self.make(alloc, event) else {
            return Err(Bad::NoMemory);
        };
        match made {
            Some(answer) => {
                self.events = self.events.saturating_add(1);
                Ok(answer)
            }
            None => Err(Bad::NotEnabled(self.events)),
        }
    }
}
