//! The pure machine over a trie image: one writer's put under way and any number of readers' finds, one load or store at a time.
//!
//! A state of the machine and its events are defined in `specs/`; the laws say that each event leads from a state of the
//! machine to a state of the machine, whatever the order in which the writer's and the readers' events come, and that each
//! find that ends has a legal answer.
#![tactic(auto)]

ghost use Rattle.trie_machine.specs.Laws.{LawNew, LawBegin, LawPrepare, LawPublish, LawFinish, LawStoreInside, LawFront, LawLoad, LawLoadInside, LawCopy, LawSplit, LawJoin, LawLook, LawFrontWithoutKey, LawSplitWriter, LawLongerAnswer, LawFewStores, LawStandingWalk};

use key_types::KeyBytes;
use std::collections::LinkedList;
use thiserror::Error;
use trie_image::{Place, Rec, WordStore};

mod machine;
mod seats;
mod writing;

pub use machine::Machine;

/// The put under way: its key and value, its stores so far, and those that are left. Contracts speak of it; no value of it is
/// made.
pub struct Begun {
    pub key: LinkedList<u8>,
    pub value: LinkedList<u8>,
    pub done: LinkedList<WordStore>,
    pub left: LinkedList<WordStore>,
}

/// A find under way: its key, the number of puts that its answer must count at least, and the place that its next load is
/// for.
#[derive(Debug, Drop)]
pub struct Find {
    pub key: KeyBytes,
    pub base: u64,
    pub place: Place,
}

/// A reader: the number of puts that it knows of, and perhaps a find under way.
#[derive(Debug, Drop)]
pub struct Reader {
    pub front: u64,
    pub find: Option<Find>,
}

/// An event of the machine, a load or a store of one word each.
#[derive(Debug, Drop)]
pub enum Event {
    /// The writer makes its next store, a Prepare store.
    Prepare,
    /// It makes its next store, the publishing one.
    Publish,
    /// It makes its next store, the last one of the put.
    Finish,
    /// A reader loads word 0 and begins a find of the key.
    Front { reader: u32, key: KeyBytes },
    /// A reader loads the word that its find needs.
    Load { reader: u32 },
    /// A reader loads a word of the value of a record.
    Copy { reader: u32, rec: Rec, word: u32 },
    /// A reader with the front of this one is made.
    Split { from: u32 },
    /// A reader ends, and another takes its front where that is greater.
    Join { from: u32, into: u32 },
}

/// What an event answers.
#[derive(Clone, Copy, PartialEq, Eq, Debug)]
pub enum Outcome {
    /// A store was made, or a reader joined.
    Quiet,
    /// The put of this number was published.
    Published(u64),
    /// The put of this number was finished.
    Finished(u64),
    /// The reader's new front.
    Front(u64),
    /// The find goes on.
    Moved,
    /// The find ended with the record, or with none, and stands for the first `at` puts.
    Found { hit: Option<Rec>, at: u64 },
    /// The loaded word.
    Word(u64),
    /// The number of the new reader.
    Reader(u32),
}

/// Why an event isn't made.
#[derive(Clone, Copy, PartialEq, Eq, Debug, Error)]
pub enum Bad {
    /// The machine has no such event after so many events.
    #[error("no such event after {0} events")]
    NotEnabled(u64),
    /// Memory ran out.
    #[error("out of memory")]
    NoMemory,
}

/// Why a put doesn't begin.
#[derive(Clone, Copy, PartialEq, Eq, Debug, Error)]
pub enum BeginError {
    /// The put of this number is under way.
    #[error("put {0} is under way")]
    Busy(u64),
    /// The cells that are taken and the put's cost are more than there are.
    #[error("{used} cells of {cells} are taken, and the put may take {cost}")]
    Full { used: u32, cost: u32, cells: u32 },
    /// Memory ran out.
    #[error("out of memory")]
    NoMemory,
}

/// The machine of zeros, with readers that know of no put, is one of its states.
pub fn law_new()
    ensures { LawNew }
{}

/// The writer gets its next put; no word changes.
pub fn law_begin()
    ensures { LawBegin }
{}

/// The put's next store is a Prepare store, and is made.
pub fn law_prepare()
    ensures { LawPrepare }
{}

/// The put's next store is the publishing one, and is made: the put is the last of the puts.
pub fn law_publish()
    ensures { LawPublish }
{}

/// The put's last store is made: word 0 counts the put.
pub fn law_finish()
    ensures { LawFinish }
{}

/// Each store of the put under way is of a word of the image.
pub fn law_store_inside()
    ensures { LawStoreInside }
{}

/// The word that a find loads is one of the image.
pub fn law_load_inside()
    ensures { LawLoadInside }
{}

/// A reader loads word 0 and begins a find.
pub fn law_front()
    ensures { LawFront }
{}

/// A reader loads the word that its find needs: the find goes on, or ends with a legal answer.
pub fn law_load()
    ensures { LawLoad }
{}

/// A reader loads a word of the value of a put's record, which holds the value's bytes.
pub fn law_copy()
    ensures { LawCopy }
{}

/// A reader with the front of another is made.
pub fn law_split()
    ensures { LawSplit }
{}

/// A reader ends, and another takes its front where that is greater.
pub fn law_join()
    ensures { LawJoin }
{}

/// A load that changes nothing; the words are those of a well-formed image with the puts.
pub fn law_look()
    ensures { LawLook }
{}

/// A reader loads word 0 and begins no find.
pub fn law_front_without_key()
    ensures { LawFrontWithoutKey }
{}

/// The writer makes a reader that knows of the finished puts.
pub fn law_split_writer()
    ensures { LawSplitWriter }
{}

/// A legal answer stays one when puts are added.
pub fn law_longer_answer()
    ensures { LawLongerAnswer }
{}

/// A put takes at most `4 * cells + 1` stores.
pub fn law_few_stores()
    ensures { LawFewStores }
{}

/// A walk over words that stand still stays in the image, and ends at the record of the key's last put, or without one where no
/// put has the key.
pub fn law_standing_walk()
    ensures { LawStandingWalk }
{}

#[cfg(test)]
mod tests;
