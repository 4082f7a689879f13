//! The writer's events: the next store of the put under way, where it is of the kind that is asked for.

ghost use Rattle.std.specs.Prelude.{◌≡◌, ◌≢◌, ℕ, ◌+◌, ◌*◌, ◌<◌, ◌≤◌, ◌^◌, List, [], ◌∷◌, length, max, slice_get, slice_index, slice_set, MatchOption, IsTrue, ◌↔◌, IfOk, OnOk, OnErr, Some, None, Err, IfErr, min, ◌/◌, ◌++◌};
ghost use Rattle.std.specs.Bool.{OnTrue, OnFalse};
ghost use Rattle.std.specs.Option.{option_copied};
ghost use mathlib.Core.Option.{some};
ghost use lib.ListN.{get_elem?};
ghost use Rattle.trie_image.specs.declared.WordStore.{WordStore};
ghost use Rattle.trie_image.specs.declared.Advance.{Advance};
ghost use Rattle.trie_machine.specs.declared.Find.{Find};
ghost use Rattle.trie_machine.specs.declared.Reader.{Reader};
ghost use Rattle.trie_machine.specs.declared.Outcome.{Outcome};
ghost use Rattle.trie_machine.specs.declared.Begun.{Begun};
ghost use Rattle.trie_machine.specs.State.{MachineState, IsMachine};
ghost use Rattle.trie_machine.specs.Events.{Begins, HasNext, with_done, Prepares, Publishes, Finishes, IsResting, HasFind, Fronts, loaded, reader_after, resting, Loads, HasWord, Copies, value_word_at, Splits, Joins};
ghost use Rattle.trie_image.specs.Puts.{IsKey};
ghost use Rattle.trie_image.specs.Stores.{stores_of, cost, CanPut};
ghost use Rattle.trie_image.specs.Publish.{put_at};
ghost use Rattle.trie_machine.specs.Laws.{opening};
ghost use Rattle.trie_machine.specs.Counted.{Counted, HasFirst, load_answer, Leads, IsLegalLoad, IsLegal};

use super::Machine;
use crate::writing::{keep, store};
use key_types::NoMemory;
use std::alloc::Global;
use trie_image::{StoreKind, WordStore};

impl Machine {
    /// The next store of the put under way, where it is of this kind.
    fn next_store(&self, kind: StoreKind) -> Option<WordStore>
        ensures none { result ≡ None → (b : Begun) (s : WordStore) (left : List WordStore) → HasNext self.now.state b s left kind → ⊥ }
        ensures some { (s : WordStore) → result ≡ Some s → (b : Begun) × (left : List WordStore) × HasNext self.now.state b s left kind }
    {
        let Some(writing) = &self.begun else {
            return None;
        };
        match writing.next() {
            Some(store) if store.kind == kind => Some(store),
            _ => None,
        }
    }

    /// Makes the next store where it is a Prepare store.
    pub(super) fn prepare(&mut self) -> bool
        ensures made { OnTrue result (Prepares self.old.state self.new.state) }
        ensures refused { OnFalse result ((m' : MachineState) → Prepares self.old.state m' → ⊥) }
        ensures same { OnFalse result (self.new ≡ self.old) }
        ensures events { self.new.events ≡ self.old.events }
    {
        let Some(next) = self.next_store(StoreKind::Prepare) else {
            return false;
        };
        store(&mut self.words, &mut self.begun, next);
        true
    }

    /// Makes the next store where it is the publishing one.
    pub(super) fn publish(&mut self, alloc: Global) -> Result<bool, NoMemory>
        ensures made { IfOk result (λ done. OnTrue done (Publishes self.old.state self.new.state)) }
        ensures refused { IfOk result (λ done. OnFalse done ((m' : MachineState) → Publishes self.old.state m' → ⊥)) }
        ensures same { IfOk result (λ done. OnFalse done (self.new ≡ self.old)) }
        ensures err { OnErr result (self.new ≡ self.old) }
        ensures events { self.new.events ≡ self.old.events }
    {
        let Some(next) = self.next_store(StoreKind::Publish) else {
            return Ok(false);
        };
        let filled = keep(alloc, &mut self.puts, &self.begun, self.used)?;
        self.used += filled;
        store(&mut self.words, &mut self.begun, next);
        Ok(true)
    }

    /// Makes the next store where it is the Finish.
    pub(super) fn finish(&mut self) -> bool
        ensures made { OnTrue result (Finishes self.old.state self.new.state) }
        ensures refused { OnFalse result ((m' : MachineState) → Finishes self.old.state m' → ⊥) }
        ensures same { OnFalse result (self.new ≡ self.old) }
        ensures events { self.new.events ≡ self.old.events }
    {
        let Some(next) = self.next_store(StoreKind::Finish) else {
            return false;
        };
        self.words[next.word as usize] = next.value;
        self.begun = None;
        true
    }
}
