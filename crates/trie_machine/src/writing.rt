//! The put under way and the puts that were published, as a machine keeps them at run time. The machine's writer calls it.
//!
//! Of a put under way all stores are there from its begin on, and a count of those that are made.

ghost use Rattle.std.specs.Prelude.{◌≡◌, ◌≢◌, ℕ, ◌+◌, ◌*◌, ◌<◌, ◌≤◌, ◌^◌, List, [], ◌∷◌, length, max, slice_get, slice_index, slice_set, MatchOption, IsTrue, ◌↔◌, IfOk, OnOk, OnErr, Some, None, Err, IfErr, min, ◌/◌, ◌++◌};
ghost use Rattle.std.specs.Bool.{OnTrue, OnFalse};
ghost use Rattle.std.specs.Option.{option_copied};
ghost use mathlib.Core.Option.{some};
ghost use lib.ListN.{get_elem?};
ghost use Rattle.trie_image.specs.declared.WordStore.{WordStore};
ghost use Rattle.trie_image.specs.declared.Advance.{Advance};
ghost use Rattle.trie_machine.specs.declared.Find.{Find};
ghost use Rattle.trie_machine.specs.declared.Reader.{Reader};
ghost use Rattle.trie_machine.specs.declared.Outcome.{Outcome};
ghost use Rattle.trie_machine.specs.declared.Begun.{Begun};
ghost use Rattle.trie_machine.specs.State.{MachineState, IsMachine};
ghost use Rattle.trie_machine.specs.Events.{Begins, HasNext, with_done, Prepares, Publishes, Finishes, IsResting, HasFind, Fronts, loaded, reader_after, resting, Loads, HasWord, Copies, value_word_at, Splits, Joins};
ghost use Rattle.trie_image.specs.Puts.{IsKey};
ghost use Rattle.trie_image.specs.Stores.{stores_of, cost, CanPut};
ghost use Rattle.trie_image.specs.Publish.{put_at};
ghost use Rattle.trie_machine.specs.Laws.{opening};
ghost use Rattle.trie_machine.specs.Counted.{Counted, HasFirst, load_answer, Leads, IsLegalLoad, IsLegal};

use key_types::{KeyBytes, NoMemory, ValueBytes};
use std::alloc::Global;
use std::marker::Model;
use trie_image::plan::plan_put;
use trie_image::{Rec, WordStore};

/// A put that was published. Contracts see it as a `Put`.
#[derive(Debug, Drop)]
pub(crate) struct Held {
    pub(crate) key: KeyBytes,
    pub(crate) value: ValueBytes,
    pub(crate) cell: u32,
}

impl Model for Held {
    ghost use Rattle.trie_image.specs.declared.Put.{Put};

    ghost Value = { Put };

    ghost view = { λ h. record { key = h.key; value = h.value; cell = h.cell } };
}

/// The put under way, with all its stores, of which the first `made` are made. Contracts see it as a `Begun`.
#[derive(Debug, Drop)]
pub(crate) struct Writing {
    pub(crate) key: KeyBytes,
    pub(crate) value: ValueBytes,
    pub(crate) stores: Vec<WordStore>,
    pub(crate) made: usize,
}

impl Model for Writing {
    ghost use Rattle.std.specs.Prelude.{◌≤◌, length, take, drop};
    ghost use Rattle.trie_machine.specs.declared.Begun.{Begun};

    ghost Value = { Begun };

    ghost view = { λ w. record { key = w.key; value = w.value; done = take w.made w.stores.items; left = drop w.made w.stores.items } };

    ghost invariant = { λ w. w.made ≤ length w.stores.items };
}

impl Writing {
    /// The store that comes next.
    pub(crate) fn next(&self) -> Option<WordStore>
        ensures { MatchOption result (self.now.left ≡ []) (λ s. HasFirst self.now.left s) }
    {
        store_in(&self.stores, self.made)
    }

    /// The number of stores that are made.
    pub(crate) fn made(&self) -> usize
        ensures { result ≡ length self.now.done }
    {
        self.made
    }

    /// Counts the next store as made.
    pub(crate) fn advance(&mut self)
        requires { 0 < length self.old.left }
        ensures { (s : WordStore) (left : List WordStore) → self.old.left ≡ s ∷ left → self.new ≡ with_done self.old s left }
    {
        self.made += 1;
    }
}

/// A put under way of which no store is made.
pub(crate) fn writing_of(
    alloc: Global,
    words: &[u64],
    used: u32,
    key: &[u8],
    value: &[u8],
) -> Result<Writing, NoMemory>
    requires { CanPut words.now used key.now value.now }
    ensures { IfOk result (λ w. w ≡ record { key = key.now; value = value.now; done = []; left = stores_of words.now used key.now value.now }) }
{
    let stores = plan_put(alloc, words, used, key, value)?;
    let mut own_key = KeyBytes::new(alloc);
    own_key.extend(key)?;
    let mut own_value = ValueBytes::new(alloc);
    own_value.extend(value)?;
    Ok(Writing {
        key: own_key,
        value: own_value,
        stores: stores.into_vec(),
        made: 0,
    })
}

/// Keeps the put under way among the puts, and tells how many cells its stores filled so far.
pub(crate) fn keep(
    alloc: Global,
    puts: &mut Vec<Held>,
    begun: &Option<Writing>,
    cell: u32,
) -> Result<u32, NoMemory>
    requires there { (b : Begun) × (begun.now ≡ Some b) }
    requires fits { (b : Begun) → begun.now ≡ Some b → length b.done / 4 < 2 ^ 32 }
    ensures puts { OnOk result ((b : Begun) → begun.now ≡ Some b → puts.new.items ≡ puts.old.items ++ put_at b.key b.value cell ∷ []) }
    ensures filled { IfOk result (λ n. (b : Begun) → begun.now ≡ Some b → n ≡ length b.done / 4) }
    ensures err { OnErr result (puts.new.items ≡ puts.old.items) }
{
    let Some(writing) = begun else {
        return Ok(0);
    };
    let filled = (writing.made() / 4) as u32;
    let mut key = KeyBytes::new(alloc);
    key.extend(writing.key.as_slice())?;
    let mut value = ValueBytes::new(alloc);
    value.extend(writing.value.as_slice())?;
    puts.push(Held { key, value, cell })?;
    Ok(filled)
}

/// The store at a place, where there is one.
fn store_in(stores: &[WordStore], place: usize) -> Option<WordStore>
    ensures { result ≡ slice_get stores.now place }
{
    stores.get(place).copied()
}

/// Makes the next store of the put under way.
pub(crate) fn store(words: &mut Vec<u64>, begun: &mut Option<Writing>, next: WordStore)
    requires there { (b : Begun) × (left : List WordStore) × (begun.old ≡ Some b) × (b.left ≡ next ∷ left) }
    requires inside { next.word < length words.old.items }
    ensures words { words.new.items ≡ slice_set words.old.items next.word next.value }
    ensures begun { (b : Begun) (left : List WordStore) → begun.old ≡ Some b → b.left ≡ next ∷ left → begun.new ≡ Some (with_done b next left) }
{
    words[next.word as usize] = next.value;
    if let Some(writing) = begun {
        writing.advance();
    }
}

/// Whether the record is that of one of the puts, and its value has a word at this place.
pub(crate) fn has_word(puts: &[Held], rec: Rec, word: u32) -> bool
    ensures yes { OnTrue result (HasWord puts.now rec word) }
    ensures no { OnFalse result (HasWord puts.now rec word → ⊥) }
{
    if rec.number == 0 {
        return false;
    }
    let Some(held) = puts.get(rec.number as usize - 1) else {
        return false;
    };
    held.cell == rec.cell
        && held.value.len() == rec.length as usize
        && 8 * (word as usize) < held.value.len()
}
