//! The children of a node in the order of their bytes: the least one under a byte that isn't below another.
//!
//! The walk of a cursor calls it. It reads only cells that the node has.

ghost use Rattle.std.specs.Prelude.{◌≡◌, ◌≢◌, ℕ, ◌+◌, ◌*◌, ◌/◌, ◌%◌, ◌<◌, ◌≤◌, ◌^◌, length, Some, Option};
ghost use Rattle.cell_layout.specs.declared.Kind.TheVariants.{Chain, Prefix};
ghost use Rattle.cell_layout.specs.Pointers.{kind_at};
ghost use Rattle.cell_layout.specs.Slots.{slot_at, slots_of, child_count, IsSparse};
ghost use Rattle.cell_layout.specs.Words.{byte_of};
ghost use Rattle.trie_image.specs.Image.{word_of, field, chain_child, slot_child, split_child, reading};
ghost use Rattle.trie_image.specs.WellFormed.{HasLedger};
ghost use Rattle.shard_freeze.specs.Edges.{LeastChild, IsFirstPlace, HasSplitCells, SkipsBytes, HasSomePath};

use cell_layout::{Kind, Ptr, chain_byte, chain_tail, half, kind_of, sparse_count, sparse_ordered};
use trie_rule::Words;

/// A child of a node: the byte under which it stands, and its pointer.
#[derive(Clone, Copy, PartialEq, Eq, Debug)]
pub struct Edge {
    pub byte: u8,
    pub to: u32,
}

/// The pointer in a field of a cell, of eight.
#[inline(always)]
pub fn pointer_in(words: &Words, cell: u32, place: u32) -> u32
    requires inside { 4 * cell + place / 2 < length words.now.words }
    requires small { cell < 2 ^ 27 }
    ensures { result ≡ field words.now.words cell place }
{
    half(words.word(4 * cell + place / 2), place % 2 == 1).0
}

/// The one child of a chain pointer.
fn least_of_chain(words: &Words, p: u32, low: u32) -> Option<Edge>
    requires kind { kind_at p ≡ Some Chain }
    requires inside { 4 * (p / 32) + 3 < length words.now.words }
    requires tail { field words.now.words (p / 32) 7 ≢ 0 }
    ensures { LeastChild (chain_child words.now.words p) low result }
{
    let cell = p / 32;
    let offset = p % 32;
    let byte = chain_byte(words.word(4 * cell + offset / 8), offset as u8);
    if (byte as u32) < low {
        return None;
    }
    let to = if offset == 27 {
        chain_tail(words.word(4 * cell + 3)).0
    } else {
        p + 1
    };
    Some(Edge { byte, to })
}

/// The first place of a sparse cell's children whose byte isn't below `low`, or their number.
fn first_place(word: u64, low: u32) -> u8
    requires { IsSparse word }
    ensures { IsFirstPlace word low result }
{
    let count = sparse_count(word);
    let mut place = 0;
    'places: while place < count {
        if sparse_ordered(word, place).0 as u32 >= low {
            return place;
        }
        place += 1;
    }
    count
}

fn least_of_sparse(words: &Words, cell: u32, low: u32) -> Option<Edge>
    requires inside { 4 * cell + 3 < length words.now.words }
    requires small { cell < 2 ^ 27 }
    requires sparse { IsSparse (word_of words.now.words cell 3) }
    requires there { (b s : ℕ) → slot_at (word_of words.now.words cell 3) b ≡ Some s
        → field words.now.words cell s ≢ 0 }
    ensures { let word = word_of words.now.words cell 3 in
        LeastChild (λ b. slot_child words.now.words cell (slot_at word b)) low result }
{
    let word = words.word(4 * cell + 3);
    let place = first_place(word, low);
    if place == sparse_count(word) {
        return None;
    }
    let (byte, slot) = sparse_ordered(word, place);
    Some(Edge {
        byte,
        to: pointer_in(words, cell, slot as u32),
    })
}

/// The child of a split node under a byte, and the byte to go on with where there is none.
fn look_in_split(words: &Words, top: u32, byte: u32) -> (u32, u32)
    requires cells { HasSplitCells words.now.words top }
    requires small { byte < 256 }
    ensures child { result.0 ≡ split_child words.now.words top byte }
    ensures next { result.0 ≡ 0 → SkipsBytes (split_child words.now.words top) byte result.1 }
{
    let mid = pointer_in(words, top, byte / 64);
    if mid == 0 {
        return (0, (byte / 64 + 1) * 64);
    }
    let leaf = pointer_in(words, mid / 32, byte / 8 % 8);
    if leaf == 0 {
        return (0, (byte / 8 + 1) * 8);
    }
    (pointer_in(words, leaf / 32, byte % 8), byte + 1)
}

fn least_of_split(words: &Words, top: u32, low: u32) -> Option<Edge>
    requires cells { HasSplitCells words.now.words top }
    ensures { LeastChild (split_child words.now.words top) low result }
{
    let mut byte = low;
    'bytes: while byte < 256 {
        let (to, next) = look_in_split(words, top, byte);
        if to != 0 {
            return Some(Edge {
                byte: byte as u8,
                to,
            });
        }
        byte = next;
    }
    None
}

/// The least child of a pointer under a byte that isn't below `low`. It isn't asked of a prefix cell.
pub fn least_child(words: &Words, p: u32, low: u32) -> Option<Edge>
    requires image { HasLedger words.now.words }
    requires path { HasSomePath words.now.words p }
    requires kind { kind_at p ≢ Some Prefix }
    ensures { LeastChild ((reading words.now.words).child p) low result }
{
    match kind_of(Ptr(p)) {
        Some(Kind::Chain) => least_of_chain(words, p, low),
        Some(Kind::Sparse) => least_of_sparse(words, p / 32, low),
        Some(Kind::Wide) => least_of_split(words, p / 32, low),
        _ => None,
    }
}
