//! The trie in memory as an image: a list of 64-bit words, four for each cell of `cell_layout`.
//!
//! An image keeps the puts of a table's shard. A walk loads one word at a time and goes from place to place; between two
//! loads the words may change. What an image means, which images are well formed and what stores of a put change is
//! defined in `specs/` and proved here, without threads; `plan` makes the list of a put's stores. Made after Apache
//! Cassandra's InMemoryTrie.md.
#![tactic(auto)]

ghost use Rattle.trie_image.specs.Laws.{LawPaths, LawClosed, LawFalls, LawOpening, LawStart, LawAdvance, LawInside, LawCost, LawShape, LawSame, LawFresh, LawRecordWord};
ghost use Rattle.std.specs.Prelude.{◌≡◌, ◌<◌, ◌≤◌};
ghost use Rattle.trie_image.specs.Stores.{cost};
ghost use Rattle.trie_image.specs.Way.{LawLeads};
ghost use Rattle.trie_image.specs.NextStore.{LawNextStore};

use key_types::ListOf;
use std::collections::LinkedList;

pub mod exit;
pub mod few_words;
pub mod find;
mod further;
pub mod plan;
pub mod put_plan;
pub mod source;
mod split_node;
pub mod walk;

/// Which word a place of a walk loads next, and what for.
#[derive(Clone, Copy, PartialEq, Eq, Debug)]
pub enum Role {
    /// The root pointer.
    Root,
    /// The byte of a chain cell that the pointer names.
    Chain,
    /// Word 3 of a sparse cell.
    Order,
    /// The child pointer in a slot of a sparse cell.
    Slot,
    /// A split node's pointer to a mid cell.
    Top,
    /// A mid cell's pointer to a leaf cell.
    Mid,
    /// A leaf cell's child pointer.
    Leaf,
    /// The two pointers of a prefix cell.
    Prefix,
    /// The head of a record.
    Head,
}

/// A place of a walk for a key. `ptr` is the pointer of the node or cell, `part` the slot or the key's next byte where the
/// role needs it, and `taken` the number of bytes of the key that the walk has taken.
#[derive(Clone, Copy, PartialEq, Eq, Debug)]
pub struct Place {
    pub role: Role,
    pub ptr: u32,
    pub part: u8,
    pub taken: u32,
}

/// A record: its first cell, the number of its put, from 1, and the length of the value in bytes.
#[derive(Clone, Copy, PartialEq, Eq, Debug)]
pub struct Rec {
    pub cell: u32,
    pub number: u32,
    pub length: u32,
}

/// What a load leads to.
#[derive(Clone, Copy, PartialEq, Eq, Debug)]
pub enum Advance {
    /// The walk goes on at a place.
    On(Place),
    /// The walk ends at the key's record.
    Found(Rec),
    /// The walk ends without a record.
    Absent,
}

/// What a store of a put is.
#[derive(Clone, Copy, PartialEq, Eq, Debug)]
pub enum StoreKind {
    /// It writes where no reader looks yet.
    Prepare,
    /// It makes the put's record reachable.
    Publish,
    /// It counts the put in word 0.
    Finish,
}

/// One store of a put: the word of the image and its new value.
#[derive(Clone, Copy, PartialEq, Eq, Debug)]
pub struct WordStore {
    pub word: u32,
    pub value: u64,
    pub kind: StoreKind,
}

/// The stores of a put in their order.
pub type WordList = ListOf<WordStore>;

/// A put and the first cell of its record. Contracts speak of it; no value of it is made.
pub struct Put {
    pub key: LinkedList<u8>,
    pub value: LinkedList<u8>,
    pub cell: u32,
}

/// Whose a cell is. Contracts speak of it; no value of it is made.
pub enum Owner {
    /// Cell 0.
    HeadCell,
    /// The record of a put, by the put's number and the cell's number in the record, both from 0.
    RecordCell(u32, u32),
    /// A chain cell, by the offset at which it was entered when it was made, and the path of its child pointer.
    ChainCell(u8, LinkedList<u8>),
    /// A sparse cell, by its path.
    SparseCell(LinkedList<u8>),
    /// The top cell of a split node, by the node's path.
    TopCell(LinkedList<u8>),
    /// A mid cell, by its node's top cell and its index there.
    MidCell(u32, u8),
    /// A leaf cell, by its node's top cell, its mid cell's index there and its index in the mid cell.
    LeafCell(u32, u8, u8),
    /// A prefix cell, by its path.
    PrefixCell(LinkedList<u8>),
}

/// The owners of the cells taken so far, from cell 0 on, and the puts so far. Contracts speak of it; no value of it is
/// made.
pub struct Ledger {
    pub owners: LinkedList<Owner>,
    pub puts: LinkedList<Put>,
}

/// How many cells a put of a key and a value of so many bytes takes at most: those of its record, those of a chain of the whole
/// key, and 16.
pub fn cost(key_len: usize, value_len: usize) -> u32
    requires key { key_len ≤ 2048 }
    requires value { value_len ≤ 65535 }
    ensures cost { result ≡ cost key_len value_len }
    ensures small { result < 4096 }
{
    (8 + value_len as u32 + 31) / 32 + (key_len as u32 + 27) / 28 + 16
}

/// Each pointer has at most one path.
pub fn law_paths()
    ensures { LawPaths }
{}

/// A child under a byte has its parent's path and this byte.
pub fn law_closed()
    ensures { LawClosed }
{}

/// Each load lowers a number that the place and the key's length give, whatever the word is.
pub fn law_falls()
    ensures { LawFalls }
{}

/// The image whose words are all 0 is well formed without puts.
pub fn law_opening()
    ensures { LawOpening }
{}

/// The start is the place of the root, and its number is at most `4 * len + 3` for a key of `len` bytes.
pub fn law_start()
    ensures { LawStart }
{}

/// A place's own word leads to a place that sees the same, to the record that is seen, or to none where none is seen.
pub fn law_advance()
    ensures { LawAdvance }
{}

/// The word that a place loads lies in the image.
pub fn law_inside()
    ensures { LawInside }
{}

/// A put takes at most its cost of new cells, which is `cells of the record + ceil(key length / 28) + 16`.
pub fn law_cost()
    ensures { LawCost }
{}

/// The stores of a put are Prepare stores, one Publish and one Finish, which stores the put's number in word 0.
pub fn law_shape()
    ensures { LawShape }
{}

/// A store that no pointer with a path reads keeps the image, its places, and what they and all such pointers see.
pub fn law_same()
    ensures { LawSame }
{}

/// A store beyond the cells taken, or into word 0, is one that no pointer with a path reads.
pub fn law_fresh()
    ensures { LawFresh }
{}

/// Each store of a put, in its turn: a Prepare store changes nothing that a pointer with a path reads, the publishing one adds
/// the put and its new cells, the Finish counts it in word 0. So it holds from every image between two stores on.
pub fn law_next_store()
    ensures { LawNextStore }
{}

/// The words of a put's record hold the bytes of its value.
pub fn law_record_word()
    ensures { LawRecordWord }
{}

/// The word that a place on the way to a key loads leads further on the way, to the record of the key's last put, or to none
/// where no put has the key.
pub fn law_leads()
    ensures { LawLeads }
{}

#[cfg(test)]
mod tests;
