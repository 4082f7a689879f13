//! Where the walk to a key leaves the trie, which decides the stores of a put.

ghost use Rattle.std.specs.Prelude.{◌≡◌, ◌<◌, ◌≤◌, ◌^◌, ◌/◌, ◌%◌, length};
ghost use Rattle.cell_layout.specs.Pointers.{kind_at};
ghost use Rattle.cell_layout.specs.Slots.{slot_at};
ghost use Rattle.trie_image.specs.Image.{word_of, field, cell_byte};
ghost use Rattle.trie_image.specs.Exit.{stand_at, stand_in, IsInside, HasFreeSlot, StaysInside, end_at, chain_step, slot_step, leaf_step, mid_step, node_step, byte_step, exit_of};

use crate::source::WordSource;
use cell_layout::{Kind, Ptr, chain_byte, half, kind_of, sparse_count, sparse_find, split_index};

/// Where a walk stands: at the pointer `at`. The pointer that entered this node or chain cell is `entered`, and it stands in
/// a 4-byte field of a cell. The root is field 2 of cell 0.
#[derive(Clone, Copy, PartialEq, Eq, Debug)]
pub struct Stand {
    pub cell: u32,
    pub field: u8,
    pub entered: u32,
    pub at: u32,
}

/// What a walk meets where it leaves the trie.
#[derive(Clone, Copy, PartialEq, Eq, Debug)]
pub enum Meets {
    /// The key's content.
    Content,
    /// A pointer 0: the root, or a leaf cell's.
    Nothing,
    /// Another byte in a chain cell.
    OtherByte,
    /// The key's end at a node or inside a chain cell.
    End,
    /// A sparse node with fewer than six children, none under the byte. The walk stands at the sparse cell.
    Sparse,
    /// A sparse node with six children, none under the byte.
    Full,
    /// A split node without the byte's leaf cell. The walk stands at the field of the mid cell where its pointer would be.
    NoLeaf,
    /// A split node without the byte's mid cell. The walk stands at the field of the top cell where its pointer would be.
    NoMid,
    /// A content pointer, with bytes of the key left.
    PastContent,
}

/// Where the walk to a key leaves the trie, with the number of the key's bytes taken until then.
#[derive(Clone, Copy, PartialEq, Eq, Debug)]
pub struct Exit {
    pub meets: Meets,
    pub stand: Stand,
    pub taken: u32,
}

/// What one byte of the key, or its end, leads to.
#[derive(Clone, Copy, PartialEq, Eq, Debug)]
pub enum Step {
    /// The walk goes on from here.
    On(Stand),
    /// The walk leaves the trie here.
    Left(Meets, Stand),
}

/// Word `place` of a cell, and 0 outside the image.
#[inline(always)]
pub(crate) fn word_at<W: WordSource>(from: &W, seat: &mut W::Seat, cell: u32, place: u32) -> u64
    requires may { W.may from.now seat.old }
    requires place { place < 4 }
    ensures word { result ≡ word_of (W.image from.now seat.old) cell place }
    ensures same { seat.new ≡ seat.old }
{
    from.word(seat, 4 * cell as usize + place as usize)
}

/// The pointer in a 4-byte field of a cell.
#[inline(always)]
pub(crate) fn pointer_in<W: WordSource>(from: &W, seat: &mut W::Seat, cell: u32, place: u8) -> u32
    requires may { W.may from.now seat.old }
    requires place { place < 8 }
    ensures pointer { result ≡ field (W.image from.now seat.old) cell place }
    ensures same { seat.new ≡ seat.old }
{
    half(word_at(from, seat, cell, place as u32 / 2), place % 2 == 1).0
}

#[inline(always)]
fn standing_in<W: WordSource>(from: &W, seat: &mut W::Seat, cell: u32, place: u8) -> Stand
    requires may { W.may from.now seat.old }
    requires place { place < 8 }
    requires cell { cell < 2 ^ 27 }
    ensures stand { result ≡ stand_in (W.image from.now seat.old) cell place }
    ensures inside { IsInside result }
    ensures same { seat.new ≡ seat.old }
{
    let at = pointer_in(from, seat, cell, place);
    Stand {
        cell,
        field: place,
        entered: at,
        at,
    }
}

fn ends<W: WordSource>(from: &W, seat: &mut W::Seat, s: Stand, taken: u32) -> Exit
    requires may { W.may from.now seat.old }
    requires inside { IsInside s }
    ensures exit { result ≡ end_at (W.image from.now seat.old) s taken (kind_at s.at) }
    ensures inside { IsInside result.stand }
    ensures free { HasFreeSlot (W.image from.now seat.old) result.meets result.stand }
    ensures same { seat.new ≡ seat.old }
{
    let (meets, stand) = match kind_of(Ptr(s.at)) {
        Some(Kind::Nothing) => (Meets::Nothing, s),
        Some(Kind::Content) => (Meets::Content, s),
        Some(Kind::Prefix) => (Meets::Content, standing_in(from, seat, s.at / 32, 0)),
        _ => (Meets::End, s),
    };
    Exit {
        meets,
        stand,
        taken,
    }
}

#[inline(always)]
fn in_chain<W: WordSource>(from: &W, seat: &mut W::Seat, s: Stand, byte: u8) -> Step
    requires may { W.may from.now seat.old }
    requires offset { s.at % 32 ≤ 27 }
    requires inside { IsInside s }
    ensures step { result ≡ chain_step (W.image from.now seat.old) byte s }
    ensures inside { StaysInside (W.image from.now seat.old) result }
    ensures same { seat.new ≡ seat.old }
{
    let offset = s.at % 32;
    let word = word_at(from, seat, s.at / 32, offset / 8);
    if chain_byte(word, offset as u8) != byte {
        Step::Left(Meets::OtherByte, s)
    } else if offset == 27 {
        Step::On(standing_in(from, seat, s.at / 32, 7))
    } else {
        Step::On(Stand { at: s.at + 1, ..s })
    }
}

#[inline(always)]
fn in_sparse<W: WordSource>(from: &W, seat: &mut W::Seat, s: Stand, byte: u8) -> Step
    requires may { W.may from.now seat.old }
    requires inside { IsInside s }
    ensures step { result ≡ slot_step (W.image from.now seat.old) s (slot_at (word_of (W.image from.now seat.old) (s.at / 32) 3) byte) }
    ensures inside { StaysInside (W.image from.now seat.old) result }
    ensures same { seat.new ≡ seat.old }
{
    let order = word_at(from, seat, s.at / 32, 3);
    match sparse_find(order, byte) {
        Some(slot) => Step::On(standing_in(from, seat, s.at / 32, slot)),
        None if sparse_count(order) < 6 => Step::Left(
            Meets::Sparse,
            Stand {
                cell: s.at / 32,
                field: 0,
                entered: s.at,
                at: s.at,
            },
        ),
        None => Step::Left(Meets::Full, s),
    }
}

#[inline(always)]
fn missing(meets: Meets, cell: u32, place: u8) -> Step
    ensures { result ≡ Step.Left meets (stand_at cell place 0) }
{
    Step::Left(
        meets,
        Stand {
            cell,
            field: place,
            entered: 0,
            at: 0,
        },
    )
}

#[inline(always)]
fn in_split<W: WordSource>(from: &W, seat: &mut W::Seat, top: u32, byte: u8) -> Step
    requires may { W.may from.now seat.old }
    requires top { top < 2 ^ 27 }
    ensures step { result ≡ mid_step (W.image from.now seat.old) byte top (field (W.image from.now seat.old) top (byte / 64)) }
    ensures inside { StaysInside (W.image from.now seat.old) result }
    ensures same { seat.new ≡ seat.old }
{
    let mid = pointer_in(from, seat, top, split_index(byte, 0));
    if mid == 0 {
        return missing(Meets::NoMid, top, split_index(byte, 0));
    }
    let leaf = pointer_in(from, seat, mid / 32, split_index(byte, 1));
    if leaf == 0 {
        return missing(Meets::NoLeaf, mid / 32, split_index(byte, 1));
    }
    Step::On(standing_in(from, seat, leaf / 32, split_index(byte, 2)))
}

#[inline(always)]
fn in_node<W: WordSource>(from: &W, seat: &mut W::Seat, s: Stand, byte: u8) -> Step
    requires may { W.may from.now seat.old }
    requires inside { IsInside s }
    ensures step { result ≡ node_step (W.image from.now seat.old) byte s (kind_at s.at) }
    ensures inside { StaysInside (W.image from.now seat.old) result }
    ensures same { seat.new ≡ seat.old }
{
    match kind_of(Ptr(s.at)) {
        Some(Kind::Chain) => in_chain(from, seat, s, byte),
        Some(Kind::Sparse) => in_sparse(from, seat, s, byte),
        Some(Kind::Wide) => in_split(from, seat, s.at / 32, byte),
        _ => Step::Left(Meets::Nothing, s),
    }
}

#[inline(always)]
fn takes<W: WordSource>(from: &W, seat: &mut W::Seat, s: Stand, byte: u8) -> Step
    requires may { W.may from.now seat.old }
    requires inside { IsInside s }
    ensures step { result ≡ byte_step (W.image from.now seat.old) byte s (kind_at s.at) }
    ensures inside { StaysInside (W.image from.now seat.old) result }
    ensures same { seat.new ≡ seat.old }
{
    match kind_of(Ptr(s.at)) {
        Some(Kind::Content) => Step::Left(Meets::PastContent, s),
        Some(Kind::Prefix) => {
            let under = standing_in(from, seat, s.at / 32, 1);
            in_node(from, seat, under, byte)
        }
        _ => in_node(from, seat, s, byte),
    }
}

/// Where the walk to the key leaves the trie.
pub fn exit_of<W: WordSource>(from: &W, seat: &mut W::Seat, key: &[u8]) -> Exit
    requires may { W.may from.now seat.old }
    requires small { length key.now < 2 ^ 32 }
    ensures exit { result ≡ exit_of (W.image from.now seat.old) key.now }
    ensures inside { IsInside result.stand }
    ensures free { HasFreeSlot (W.image from.now seat.old) result.meets result.stand }
    ensures same { seat.new ≡ seat.old }
{
    let mut here = standing_in(from, seat, 0, 2);
    'bytes: for (taken, &byte) in key.iter().enumerate() {
        match takes(from, seat, here, byte) {
            Step::On(next) => here = next,
            Step::Left(meets, stand) => {
                return Exit {
                    meets,
                    stand,
                    taken: taken as u32,
                };
            }
        }
    }
    ends(from, seat, here, key.len() as u32)
}
