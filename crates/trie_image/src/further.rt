//! The further cells of a put, by what the walk to its key met.

ghost use Rattle.std.specs.Prelude.{◌≡◌, ℕ, ◌+◌, ◌*◌, ◌%◌, ◌/◌, ◌^◌, ◌<◌, ◌≤◌, ◌++◌, length};
ghost use Rattle.trie_image.specs.Image.{cell_byte};
ghost use Rattle.trie_image.specs.Body.{passed_bytes, passed_words, over_passed, chain_rest, further, published};

use crate::exit::{Exit, Meets, Stand, pointer_in, word_at};
use crate::few_words::FewWords;
use crate::source::WordSource;
use crate::split_node::push_split_node;
use cell_layout::{branch_cell, chain_cell, lone_cell, prefix_cell};

/// A byte of a cell.
fn byte_in<W: WordSource>(from: &W, seat: &mut W::Seat, cell: u32, offset: u32) -> u8
    requires may { W.may from.now seat.old }
    requires inside { offset < 32 }
    ensures byte { result ≡ cell_byte (W.image from.now seat.old) cell offset }
    ensures same { seat.new ≡ seat.old }
{
    ((word_at(from, seat, cell, offset / 8) >> (8 * (offset % 8))) % 0x100) as u8
}

/// The bytes of a chain cell that the walk passed, at the end of a cell's 28, zeros before them.
fn bytes_passed<W: WordSource>(from: &W, seat: &mut W::Seat, s: Stand) -> [u8; 28]
    requires { W.may from.now seat.old }
    ensures bytes { result ≡ passed_bytes (W.image from.now seat.old) s }
    ensures same { seat.new ≡ seat.old }
{
    let passed = s.at.saturating_sub(s.entered) as u64;
    let mut bytes = [0; 28];
    'offsets: for offset in 0..28u8 {
        if offset as u64 + passed >= 28 {
            let place = (s.at % 32 + offset as u32).saturating_sub(28);
            bytes[offset as usize] = byte_in(from, seat, s.at / 32, place);
        }
    }
    bytes
}

/// A chain cell for the passed bytes, where there are any.
fn push_passed<W: WordSource>(out: &mut FewWords, from: &W, seat: &mut W::Seat, s: Stand, end: u32)
    requires may { W.may from.now seat.old }
    requires capacity { length out.old + 4 ≤ 60 }
    ensures words { out.new ≡ out.old ++ passed_words (W.image from.now seat.old) s end }
    ensures same { seat.new ≡ seat.old }
{
    if s.at == s.entered {
        return;
    }
    let bytes = bytes_passed(from, seat, s);
    out.push_cell(chain_cell(&bytes, end));
}

/// The child of a chain's byte.
fn rest_of_chain<W: WordSource>(from: &W, seat: &mut W::Seat, at: u32) -> u32
    requires { W.may from.now seat.old }
    ensures child { result ≡ chain_rest (W.image from.now seat.old) at }
    ensures same { seat.new ≡ seat.old }
{
    if at % 32 == 27 {
        pointer_in(from, seat, at / 32, 7)
    } else if at % 32 < 27 {
        at + 1
    } else {
        0
    }
}

/// The cells of the case that the walk met, from cell `first` on.
pub(crate) fn push_further<W: WordSource>(
    out: &mut FewWords,
    from: &W,
    seat: &mut W::Seat,
    exit: Exit,
    byte: u8,
    first: u32,
    content: u32,
    entry: u32,
)
    requires may { W.may from.now seat.old }
    requires first { first < 2 ^ 26 }
    requires capacity { length out.old ≡ 0 }
    ensures words { out.new ≡ out.old ++ further (W.image from.now seat.old) exit.meets exit.stand byte first content entry }
    ensures same { seat.new ≡ seat.old }
{
    let s = exit.stand;
    match exit.meets {
        Meets::Content | Meets::Nothing | Meets::Sparse => {}
        Meets::OtherByte => {
            let old = byte_in(from, seat, s.at / 32, s.at % 32);
            let rest = rest_of_chain(from, seat, s.at);
            out.push_cell(branch_cell(old, rest, byte, entry));
            push_passed(out, from, seat, s, 32 * first + 30);
        }
        Meets::End => {
            out.push_cell(prefix_cell(content, s.at));
            push_passed(out, from, seat, s, 32 * first + 31);
        }
        Meets::Full => push_split_node(out, from, seat, s.at / 32, byte, entry, first),
        Meets::NoLeaf => out.push_cell(lone_cell(byte % 8, entry)),
        Meets::NoMid => {
            out.push_cell(lone_cell(byte / 8 % 8, 32 * (first + 1) + 28));
            out.push_cell(lone_cell(byte % 8, entry));
        }
        Meets::PastContent => out.push_cell(prefix_cell(s.at, entry)),
    }
}

fn over_bytes(s: Stand, first: u32, offset: u32) -> u32
    requires first { first < 2 ^ 26 }
    requires offset { offset < 32 }
    ensures { result ≡ over_passed s first offset }
{
    if s.at == s.entered {
        32 * first + offset
    } else {
        32 * (first + 1) + 28u32.saturating_sub(s.at.saturating_sub(s.entered))
    }
}

/// The pointer that the publishing store puts in its field.
pub(crate) fn pointer_to_publish(exit: Exit, first: u32, content: u32, entry: u32) -> u32
    requires { first < 2 ^ 26 }
    ensures { result ≡ published exit.meets exit.stand first content entry }
{
    match exit.meets {
        Meets::Content => content,
        Meets::Nothing | Meets::Sparse => entry,
        Meets::OtherByte => over_bytes(exit.stand, first, 30),
        Meets::End => over_bytes(exit.stand, first, 31),
        Meets::PastContent => 32 * first + 31,
        Meets::Full | Meets::NoLeaf | Meets::NoMid => 32 * first + 28,
    }
}
