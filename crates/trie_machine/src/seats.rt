//! The readers of a machine at run time, each in its place. The machine's readers call it.
//!
//! A reader that ended leaves its place empty, and no place is taken twice.

ghost use Rattle.std.specs.Prelude.{◌≡◌, ◌≢◌, ℕ, ◌+◌, ◌*◌, ◌<◌, ◌≤◌, ◌^◌, List, [], ◌∷◌, length, max, slice_get, slice_index, slice_set, MatchOption, IsTrue, ◌↔◌, IfOk, OnOk, OnErr, Some, None, Err, IfErr, min, ◌/◌, ◌++◌};
ghost use Rattle.std.specs.Bool.{OnTrue, OnFalse};
ghost use Rattle.std.specs.Option.{option_copied};
ghost use mathlib.Core.Option.{some};
ghost use lib.ListN.{get_elem?};
ghost use Rattle.trie_image.specs.declared.WordStore.{WordStore};
ghost use Rattle.trie_image.specs.declared.Advance.{Advance};
ghost use Rattle.trie_machine.specs.declared.Find.{Find};
ghost use Rattle.trie_machine.specs.declared.Reader.{Reader};
ghost use Rattle.trie_machine.specs.declared.Outcome.{Outcome};
ghost use Rattle.trie_machine.specs.declared.Begun.{Begun};
ghost use Rattle.trie_machine.specs.State.{MachineState, IsMachine};
ghost use Rattle.trie_machine.specs.Events.{Begins, HasNext, with_done, Prepares, Publishes, Finishes, IsResting, HasFind, Fronts, loaded, reader_after, resting, Loads, HasWord, Copies, value_word_at, Splits, Joins};
ghost use Rattle.trie_image.specs.Puts.{IsKey};
ghost use Rattle.trie_image.specs.Stores.{stores_of, cost, CanPut};
ghost use Rattle.trie_image.specs.Publish.{put_at};
ghost use Rattle.trie_machine.specs.Laws.{opening};
ghost use Rattle.trie_machine.specs.Counted.{Counted, HasFirst, load_answer, Leads, IsLegalLoad, IsLegal};

use crate::{Find, Outcome, Reader};
use trie_image::Advance;

/// Moves a reader's find on, or ends it.
pub(crate) fn step(readers: &mut Vec<Option<Reader>>, reader: u32, advance: Advance) -> Outcome
    requires { (r : Reader) × (f : Find) × (get_elem? readers.old.items reader ≡ some (Some r)) × (r.find ≡ Some f) }
    ensures readers { (r : Reader) (f : Find) → get_elem? readers.old.items reader ≡ some (Some r) → r.find ≡ Some f → readers.new.items ≡ slice_set readers.old.items reader (Some (reader_after r f advance)) }
    ensures answer { (r : Reader) (f : Find) → get_elem? readers.old.items reader ≡ some (Some r) → r.find ≡ Some f → result ≡ load_answer f advance }
{
    let taken = std::mem::replace(&mut readers[reader as usize], None);
    let (after, answer) = after(taken, advance);
    readers[reader as usize] = after;
    answer
}

/// A reader after a load of its find, and what the load answers.
fn after(taken: Option<Reader>, advance: Advance) -> (Option<Reader>, Outcome)
    ensures reader { (r : Reader) (f : Find) → taken ≡ Some r → r.find ≡ Some f → result.0 ≡ Some (reader_after r f advance) }
    ensures answer { (r : Reader) (f : Find) → taken ≡ Some r → r.find ≡ Some f → result.1 ≡ load_answer f advance }
{
    let Some(
        Reader {
            front,
            find: Some(find),
        },
    ) = taken
    else {
        return (None, Outcome::Moved);
    };
    match advance {
        Advance::On(place) => {
            let find = Find {
                key: find.key,
                base: find.base,
                place,
            };
            let on = Reader {
                front,
                find: Some(find),
            };
            (Some(on), Outcome::Moved)
        }
        Advance::Found(rec) => {
            let at = find.base.max(rec.number as u64);
            (Some(resting(at)), Outcome::Found { hit: Some(rec), at })
        }
        Advance::Absent => {
            let at = find.base;
            (Some(resting(at)), Outcome::Found { hit: None, at })
        }
    }
}

fn resting(front: u64) -> Reader
    ensures { result ≡ resting front }
{
    Reader { front, find: None }
}

/// Whether the bytes are within the limits of a key.
pub(crate) fn is_key(key: &[u8]) -> bool
    ensures { IsTrue result ↔ IsKey key.now }
{
    !key.is_empty() && key.len() <= 2048
}

/// The reader of this number, where it is there.
pub(crate) fn reader_of(readers: &[Option<Reader>], reader: u32) -> Option<&Reader>
    ensures { MatchOption result ((r : Reader) → get_elem? readers.now reader ≡ some (Some r) → ⊥) (λ r. get_elem? readers.now reader ≡ some (Some r.now)) }
{
    let Some(place) = place_of(readers, reader) else {
        return None;
    };
    match place {
        Some(r) => Some(r),
        None => None,
    }
}

fn place_of(readers: &[Option<Reader>], reader: u32) -> Option<&Option<Reader>>
    ensures { option_copied result ≡ slice_get readers.now reader }
{
    readers.get(reader as usize)
}
