//! The fields of a trie's cells: one function for each field, on the 64-bit word or the 32-bit pointer that holds it.
//!
//! A cell has 32 bytes, four little-endian words. The cells are made after the node types of Apache Cassandra's
//! InMemoryTrie.md; the offsets and the places in a cell are this project's own. No function takes memory.
#![tactic(auto)]

ghost use Rattle.std.specs.Prelude.{◌≡◌, ◌%◌, ◌≤◌, true, false, not};
ghost use Rattle.cell_layout.specs.Words.{half_of, with_half_of, byte_of};
ghost use Rattle.cell_layout.specs.Pointers.{kind_at, index_at};
ghost use Rattle.cell_layout.specs.Laws.{LawNextByte, LawSplitIndices, LawSlots, LawOrdered};

mod cells;
mod sparse;

pub use cells::{
    branch_cell, chain_cell, joined, lone_cell, padded_cell, prefix_cell, word_of_chain,
    word_of_record, word_of_value,
};
pub use sparse::{sparse_add, sparse_count, sparse_find, sparse_ordered};

/// A pointer of a cell: 0 is none, a number from 2^31 up is content, any other is `32 * cell + offset`.
#[derive(Clone, Copy, PartialEq, Eq, Debug)]
pub struct Ptr(pub u32);

/// What a pointer names.
#[derive(Clone, Copy, PartialEq, Eq, Debug)]
pub enum Kind {
    /// The pointer 0.
    Nothing,
    /// A record; the complement of the pointer is its first cell.
    Content,
    /// A byte of a chain cell, offsets 0 to 27.
    Chain,
    /// A sparse cell, offset 30.
    Sparse,
    /// The top cell of a split node, offset 28. Pointers to its mid and leaf cells have this offset too.
    Wide,
    /// A prefix cell, offset 31.
    Prefix,
}

/// What the pointer names, by its highest bit and its offset; None for the offset 29, which no pointer has.
pub fn kind_of(p: Ptr) -> Option<Kind>
    ensures { result ≡ kind_at p.0 }
{
    if p.0 == 0 {
        Some(Kind::Nothing)
    } else if p.0 >= 0x8000_0000 {
        Some(Kind::Content)
    } else {
        match p.0 % 32 {
            0..=27 => Some(Kind::Chain),
            28 => Some(Kind::Wide),
            30 => Some(Kind::Sparse),
            31 => Some(Kind::Prefix),
            _ => None,
        }
    }
}

/// The low or the high half of a word, which is a pointer.
pub fn half(word: u64, high: bool) -> Ptr
    ensures { result.0 ≡ half_of word high }
{
    if high {
        Ptr((word >> 32) as u32)
    } else {
        Ptr((word & 0xffff_ffff) as u32)
    }
}

/// The word with that half changed, and the other half as it was.
pub fn with_half(word: u64, high: bool, p: Ptr) -> u64
    ensures word { result ≡ with_half_of word high p.0 }
    ensures changed { half_of result high ≡ p.0 }
    ensures kept { half_of result (not high) ≡ half_of word (not high) }
{
    if high {
        p.0 as u64 * 0x1_0000_0000 + word % 0x1_0000_0000
    } else {
        word / 0x1_0000_0000 * 0x1_0000_0000 + p.0 as u64
    }
}

/// The transition byte at an offset of a chain cell, from the word that holds it, word `offset / 8` of the cell.
pub fn chain_byte(word: u64, offset: u8) -> u8
    requires { offset ≤ 27 }
    ensures { result ≡ byte_of word (offset % 8) }
{
    ((word >> (8 * (offset as u32 % 8))) % 256) as u8
}

/// The child pointer of a chain cell, from the cell's word 3.
pub fn chain_tail(word: u64) -> Ptr
    ensures { result.0 ≡ half_of word true }
{
    Ptr((word >> 32) as u32)
}

/// The index of a byte's pointer in the top cell (level 0, two bits), the mid cell (level 1, three bits) or the leaf
/// cell (level 2, three bits) of a split node.
pub fn split_index(byte: u8, level: u8) -> u8
    requires { level ≤ 2 }
    ensures { result ≡ index_at byte level }
{
    match level {
        0 => byte / 64,
        1 => byte / 8 % 8,
        _ => byte % 8,
    }
}

/// Word 0 of a record: the put's number in the low half, the value's length in bytes in the high half.
pub fn record_head(number: u32, length: u32) -> u64
    ensures number { half_of result false ≡ number }
    ensures len { half_of result true ≡ length }
{
    length as u64 * 0x1_0000_0000 + number as u64
}

/// The put's number and the value's length, from word 0 of a record.
pub fn head_parts(word: u64) -> (u32, u32)
    ensures number { result.0 ≡ half_of word false }
    ensures len { result.1 ≡ half_of word true }
{
    ((word & 0xffff_ffff) as u32, (word >> 32) as u32)
}

/// A chain pointer that isn't at its cell's last byte is followed by the pointer to the next byte of the same cell.
pub fn law_next_byte()
    ensures { LawNextByte }
{}

/// A byte is made of its three indices in a split node.
pub fn law_split_indices()
    ensures { LawSplitIndices }
{}

/// A slot that is found has the byte, is one of the children's, and no slot before it has the byte.
pub fn law_slots()
    ensures { LawSlots }
{}

/// The children that a node's order word names, in ascending order of their bytes, are exactly those that are found by their
/// bytes, each in the same slot.
pub fn law_ordered()
    ensures { LawOrdered }
{}

#[cfg(test)]
mod tests;
