//! What seats know. Contracts and the rule speak of these; no value of them is made.

use std::collections::LinkedList;
use trie_image::Put;
use trie_machine::{Begun, Reader};

/// What the write seat knows: the number of cells, the words, how many cells are taken, the puts that are published, and
/// the put under way.
pub struct WriteView {
    pub cells: u32,
    pub image: LinkedList<u64>,
    pub used: u32,
    pub made: LinkedList<Put>,
    pub begun: Option<Begun>,
}

/// What a read seat knows: the number of cells, puts that were published, and where its reader stands.
pub struct ReadView {
    pub cells: u32,
    /// The first puts of the writer, at least as many as the reader's front says.
    pub seen: LinkedList<Put>,
    /// What the one seat of the last join had seen, until the next step.
    pub left: LinkedList<Put>,
    /// What the other seat of the last join had seen, until the next step.
    pub right: LinkedList<Put>,
    pub reader: Reader,
}

/// What a seat knows; a seat that was joined to another is spent.
pub enum View {
    Spent,
    Writes(WriteView),
    Reads(ReadView),
}
