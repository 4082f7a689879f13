//! The readers' events: a find that begins or moves on, a word of a value, a reader that is made or ends.

ghost use Rattle.std.specs.Prelude.{◌≡◌, ◌≢◌, ℕ, ◌+◌, ◌*◌, ◌<◌, ◌≤◌, ◌^◌, List, [], ◌∷◌, length, max, slice_get, slice_index, slice_set, MatchOption, IsTrue, ◌↔◌, IfOk, OnOk, OnErr, Some, None, Err, IfErr, min, ◌/◌, ◌++◌};
ghost use Rattle.std.specs.Bool.{OnTrue, OnFalse};
ghost use Rattle.std.specs.Option.{option_copied};
ghost use mathlib.Core.Option.{some};
ghost use lib.ListN.{get_elem?};
ghost use Rattle.trie_image.specs.declared.WordStore.{WordStore};
ghost use Rattle.trie_image.specs.declared.Advance.{Advance};
ghost use Rattle.trie_machine.specs.declared.Find.{Find};
ghost use Rattle.trie_machine.specs.declared.Reader.{Reader};
ghost use Rattle.trie_machine.specs.declared.Outcome.{Outcome};
ghost use Rattle.trie_machine.specs.declared.Begun.{Begun};
ghost use Rattle.trie_machine.specs.State.{MachineState, IsMachine};
ghost use Rattle.trie_machine.specs.Events.{Begins, HasNext, with_done, Prepares, Publishes, Finishes, IsResting, HasFind, Fronts, loaded, reader_after, resting, Loads, HasWord, Copies, value_word_at, Splits, Joins};
ghost use Rattle.trie_image.specs.Puts.{IsKey};
ghost use Rattle.trie_image.specs.Stores.{stores_of, cost, CanPut};
ghost use Rattle.trie_image.specs.Publish.{put_at};
ghost use Rattle.trie_machine.specs.Laws.{opening};
ghost use Rattle.trie_machine.specs.Counted.{Counted, HasFirst, load_answer, Leads, IsLegalLoad, IsLegal};

use super::Machine;
use crate::seats::{is_key, reader_of, step};
use crate::writing::has_word;
use crate::{Find, Outcome, Reader};
use key_types::{KeyBytes, NoMemory};
use trie_image::walk::{advance, next_word, start};
use trie_image::{Advance, Rec};

impl Machine {
    /// The front of a reader that is there and has no find.
    fn resting(&self, reader: u32) -> Option<u64>
        ensures none { result ≡ None → (r : Reader) → IsResting self.now.state reader r → ⊥ }
        ensures some { (n : ℕ) → result ≡ Some n → (r : Reader) × IsResting self.now.state reader r × (r.front ≡ n) }
    {
        match reader_of(&self.readers, reader) {
            Some(r) if r.find.is_none() => Some(r.front),
            _ => None,
        }
    }

    /// Loads word 0 for a reader without a find, and begins its find of the key.
    pub(super) fn front(&mut self, reader: u32, key: KeyBytes) -> Option<u64>
        ensures made { (n : ℕ) → result ≡ Some n → (f : Fronts self.old.state self.new.state reader key) × (n ≡ max f.reader.front (slice_index self.old.state.words 0)) }
        ensures refused { result ≡ None → (m' : MachineState) → Fronts self.old.state m' reader key → ⊥ }
        ensures same { result ≡ None → self.new ≡ self.old }
        ensures events { self.new.events ≡ self.old.events }
    {
        let own = self.resting(reader)?;
        if !is_key(key.as_slice()) {
            return None;
        }
        let front = own.max(self.words[0]);
        let find = Find {
            key,
            base: front,
            place: start(),
        };
        self.readers[reader as usize] = Some(Reader {
            front,
            find: Some(find),
        });
        Some(front)
    }

    /// What the word that a reader's find needs leads to.
    fn advanced(&self, reader: u32) -> Option<Advance>
        ensures none { result ≡ None → (r : Reader) (f : Find) → HasFind self.now.state reader r f → ⊥ }
        ensures some { (a : Advance) → result ≡ Some a → (r : Reader) × (f : Find) × HasFind self.now.state reader r f × (a ≡ loaded self.now.state.words f) }
    {
        let r = reader_of(&self.readers, reader)?;
        let Some(find) = &r.find else {
            return None;
        };
        let word = self.words[next_word(&find.place) as usize];
        Some(advance(&find.place, word, find.key.as_slice()))
    }

    /// Loads the word that a reader's find needs.
    pub(super) fn load(&mut self, reader: u32) -> Option<Outcome>
        ensures made { (o : Outcome) → result ≡ Some o → (l : Loads self.old.state self.new.state reader) × (o ≡ load_answer l.find (loaded self.old.state.words l.find)) }
        ensures legal { (o : Outcome) → result ≡ Some o → IsLegalLoad self.old.state reader o }
        ensures refused { result ≡ None → (m' : MachineState) → Loads self.old.state m' reader → ⊥ }
        ensures same { result ≡ None → self.new ≡ self.old }
        ensures events { self.new.events ≡ self.old.events }
    {
        let advance = self.advanced(reader)?;
        Some(step(&mut self.readers, reader, advance))
    }

    /// Loads a word of the value of a record, for a reader that is there.
    pub(super) fn copy(&self, reader: u32, rec: Rec, word: u32) -> Option<u64>
        ensures made { (w : ℕ) → result ≡ Some w → Copies self.now.state self.now.state rec word × (w ≡ slice_index self.now.state.words (value_word_at rec word)) × (r : Reader) × (get_elem? self.now.state.readers reader ≡ some (Some r)) }
        ensures refused { result ≡ None → (m' : MachineState) (r : Reader) → get_elem? self.now.state.readers reader ≡ some (Some r) → Copies self.now.state m' rec word → ⊥ }
    {
        reader_of(&self.readers, reader)?;
        if !has_word(&self.puts, rec, word) {
            return None;
        }
        Some(self.words[4 * rec.cell as usize + 1 + word as usize])
    }

    /// Makes a reader with the front of another.
    pub(super) fn split(&mut self, from: u32) -> Result<Option<u32>, NoMemory>
        ensures made { IfOk result (λ o. (n : ℕ) → o ≡ Some n → Splits self.old.state self.new.state from × (n ≡ length self.old.state.readers)) }
        ensures refused { IfOk result (λ o. o ≡ None → (m' : MachineState) → Splits self.old.state m' from → ⊥) }
        ensures same { IfOk result (λ o. o ≡ None → self.new ≡ self.old) }
        ensures err { OnErr result (self.new ≡ self.old) }
        ensures events { self.new.events ≡ self.old.events }
    {
        let Some(reader) = reader_of(&self.readers, from) else {
            return Ok(None);
        };
        let front = reader.front;
        let count = self.readers.len();
        if count >= 0x1_0000_0000 {
            return Ok(None);
        }
        self.readers.push(Some(Reader { front, find: None }))?;
        Ok(Some(count as u32))
    }

    /// Ends a reader, whose front another takes where it is greater.
    pub(super) fn join(&mut self, from: u32, into: u32) -> bool
        ensures made { OnTrue result (Joins self.old.state self.new.state from into) }
        ensures refused { OnFalse result ((m' : MachineState) → Joins self.old.state m' from into → ⊥) }
        ensures same { OnFalse result (self.new ≡ self.old) }
        ensures events { self.new.events ≡ self.old.events }
    {
        let (Some(ending), Some(own)) = (self.resting(from), self.resting(into)) else {
            return false;
        };
        if from == into {
            return false;
        }
        self.readers[into as usize] = Some(Reader {
            front: own.max(ending),
            find: None,
        });
        self.readers[from as usize] = None;
        true
    }
}
