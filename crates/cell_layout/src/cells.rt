//! The words of the cells that a put makes, one function for a word or for the four words of a cell.
//!
//! A put's plan calls them. Each answers the words that `specs/Cells.antt` gives, from the values that it was handed alone.

ghost use Rattle.std.specs.Prelude.{◌≡◌, ℕ, ◌+◌, ◌-◌, ◌*◌, ◌%◌, ◌/◌, ◌^◌, ◌<◌, ◌≤◌, length, slice_index, slice_get, take, drop, Some};
ghost use Rattle.cell_layout.specs.Cells.{number_of_bytes, record_cells, pair, value_word, record_words, chain_cell, padded, chain_from, two_words, branch_words, prefix_words, lone_word, lone_words};

/// A word of two 4-byte fields.
pub fn joined(low: u32, high: u32) -> u64
    ensures { result ≡ pair low high }
{
    high as u64 * 0x1_0000_0000 + low as u64
}

fn byte_or_zero(bytes: &[u8], at: usize) -> u8
    ensures { result ≡ slice_index bytes.now at }
{
    bytes.get(at).copied().unwrap_or(0)
}

/// The little-endian number of at most eight bytes.
#[inline(always)]
#[tactic(auto, using(crate::proofs::Numbers::number_by_bytes))]
fn number(bytes: &[u8]) -> u64
    requires { length bytes.now ≤ 8 }
    ensures { result ≡ number_of_bytes bytes.now }
{
    byte_or_zero(bytes, 0) as u64
        + 0x100 * byte_or_zero(bytes, 1) as u64
        + 0x1_0000 * byte_or_zero(bytes, 2) as u64
        + 0x100_0000 * byte_or_zero(bytes, 3) as u64
        + 0x1_0000_0000 * byte_or_zero(bytes, 4) as u64
        + 0x100_0000_0000 * byte_or_zero(bytes, 5) as u64
        + 0x1_0000_0000_0000 * byte_or_zero(bytes, 6) as u64
        + 0x100_0000_0000_0000 * byte_or_zero(bytes, 7) as u64
}

/// The little-endian number of four bytes.
#[inline(always)]
#[tactic(auto, using(crate::proofs::Numbers::number_of_four))]
fn low_number(bytes: &[u8]) -> u32
    requires { length bytes.now ≡ 4 }
    ensures { result ≡ number_of_bytes bytes.now }
{
    bytes[0] as u32
        + 0x100 * bytes[1] as u32
        + 0x1_0000 * bytes[2] as u32
        + 0x100_0000 * bytes[3] as u32
}

/// Word `place` of a value, eight of its bytes, filled with zeros.
pub fn word_of_value(value: &[u8], place: usize) -> u64
    requires { place < 2 ^ 32 }
    ensures { result ≡ value_word value.now place }
{
    let at = 8 * place;
    if at >= value.len() {
        return 0;
    }
    let rest = value.split_at(at).1;
    if rest.len() >= 8 {
        number(rest.split_at(8).0)
    } else {
        number(rest)
    }
}

/// A word of the record of a put, by its place: the number of the put and the length of its value, then the value.
pub fn word_of_record(put: u32, value: &[u8], place: usize) -> u64
    requires short { length value.now ≤ 65535 }
    requires inside { place < 4 * record_cells (length value.now) }
    ensures { slice_get (record_words put value.now) place ≡ Some result }
{
    if place == 0 {
        joined(put, value.len() as u32)
    } else {
        word_of_value(value, place - 1)
    }
}

/// A byte of a chain cell whose bytes stand at its end.
#[inline(always)]
fn padded_byte(bytes: &[u8], offset: usize) -> u8
    requires few { length bytes.now ≤ 28 }
    requires inside { offset < 28 }
    ensures { result ≡ slice_index (padded bytes.now) offset }
{
    if offset + bytes.len() >= 28 {
        bytes[offset + bytes.len() - 28]
    } else {
        0
    }
}

/// The first three words of a chain cell whose bytes stand at its end.
fn padded_word(bytes: &[u8], place: usize) -> u64
    requires few { length bytes.now ≤ 28 }
    requires inside { place < 3 }
    ensures { result ≡ number_of_bytes (take 8 (drop (8 * place) (padded bytes.now))) }
{
    let at = 8 * place;
    if at + 8 + bytes.len() <= 28 {
        return 0;
    }
    if at + bytes.len() >= 28 {
        return number(bytes.split_at(at + bytes.len() - 28).1.split_at(8).0);
    }
    number(&[
        padded_byte(bytes, at),
        padded_byte(bytes, at + 1),
        padded_byte(bytes, at + 2),
        padded_byte(bytes, at + 3),
        padded_byte(bytes, at + 4),
        padded_byte(bytes, at + 5),
        padded_byte(bytes, at + 6),
        padded_byte(bytes, at + 7),
    ])
}

/// The last four bytes of such a cell.
fn padded_last(bytes: &[u8]) -> u32
    requires { length bytes.now ≤ 28 }
    ensures { result ≡ number_of_bytes (take 4 (drop 24 (padded bytes.now))) }
{
    low_number(&[
        padded_byte(bytes, 24),
        padded_byte(bytes, 25),
        padded_byte(bytes, 26),
        padded_byte(bytes, 27),
    ])
}

/// A word of a chain cell whose bytes stand at its end.
fn word_of_chain_cell(bytes: &[u8], tail: u32, place: usize) -> u64
    requires few { length bytes.now ≤ 28 }
    requires inside { place < 4 }
    ensures { slice_get (chain_cell (padded bytes.now) tail) place ≡ Some result }
{
    if place == 3 {
        joined(padded_last(bytes), tail)
    } else {
        padded_word(bytes, place)
    }
}

/// The bytes of a chain cell after which so many follow, all of which are full.
fn bytes_of_cell(bytes: &[u8], after: u32) -> &[u8]
    requires inside { 28 * after < length bytes.now }
    requires small { after < 2 ^ 26 }
    ensures bytes { result.now ≡ take (length bytes.now - 28 * after - (length bytes.now - 28 * (after + 1))) (drop (length bytes.now - 28 * (after + 1)) bytes.now) }
    ensures few { length result.now ≤ 28 }
{
    let start = bytes.len().saturating_sub(28 * (after as usize + 1));
    let end = bytes.len() - 28 * after as usize;
    bytes.split_at(start).1.split_at(end - start).0
}

/// A word, by its place, of so many chain cells from cell `first` on, which lead over the bytes to the pointer `end`. Each cell
/// but the first is full.
pub fn word_of_chain(first: u32, cells: u32, bytes: &[u8], end: u32, place: u32) -> u64
    requires inside { place < 4 * cells }
    requires small { first + cells < 2 ^ 26 }
    requires least { length bytes.now ≤ 28 * cells }
    requires most { 28 * cells ≤ length bytes.now + 27 }
    ensures { slice_get (chain_from first cells bytes.now end) place ≡ Some result }
{
    let cell = place / 4;
    let after = cells - 1 - cell;
    let next = if after == 0 {
        end
    } else {
        32 * (first + cell + 1)
    };
    let part = bytes_of_cell(bytes, after);
    word_of_chain_cell(part, next, place as usize % 4)
}

fn two_cell(lesser: u8, low: u32, greater: u8, high: u32) -> [u64; 4]
    ensures { result ≡ two_words lesser low greater high }
{
    let word = lesser as u64 + 0x100 * greater as u64 + 6 * 0x1_0000_0000_0000;
    [joined(low, high), 0, 0, word]
}

/// A sparse cell of two children: the one under the byte that stood there, and the one under the new byte.
pub fn branch_cell(old: u8, child: u32, new: u8, entry: u32) -> [u64; 4]
    ensures { result ≡ branch_words old child new entry }
{
    if old <= new {
        two_cell(old, child, new, entry)
    } else {
        two_cell(new, entry, old, child)
    }
}

/// A prefix cell of a content pointer and the pointer to a node.
pub fn prefix_cell(content: u32, node: u32) -> [u64; 4]
    ensures { result ≡ prefix_words content node }
{
    [joined(content, node), 0, 0, 0]
}

fn word_of_lone(index: u8, p: u32, place: u8) -> u64
    ensures { result ≡ lone_word index p place }
{
    if index / 2 != place {
        0
    } else if index % 2 == 1 {
        joined(0, p)
    } else {
        p as u64
    }
}

/// A mid or leaf cell with one pointer, at its index of eight.
pub fn lone_cell(index: u8, p: u32) -> [u64; 4]
    ensures { result ≡ lone_words index p }
{
    [
        word_of_lone(index, p, 0),
        word_of_lone(index, p, 1),
        word_of_lone(index, p, 2),
        word_of_lone(index, p, 3),
    ]
}

/// A chain cell whose bytes, at most 28, stand at its end, and its child pointer.
#[inline(always)]
pub fn padded_cell(bytes: &[u8], tail: u32) -> [u64; 4]
    requires { length bytes.now ≤ 28 }
    ensures { result ≡ chain_cell (padded bytes.now) tail }
{
    [
        padded_word(bytes, 0),
        padded_word(bytes, 1),
        padded_word(bytes, 2),
        joined(padded_last(bytes), tail),
    ]
}

/// A chain cell of 28 bytes and its child pointer.
pub fn chain_cell(bytes: &[u8], tail: u32) -> [u64; 4]
    requires { length bytes.now ≡ 28 }
    ensures { result ≡ chain_cell bytes.now tail }
{
    [
        number(&bytes[0..8]),
        number(&bytes[8..16]),
        number(&bytes[16..24]),
        joined(low_number(&bytes[24..28]), tail),
    ]
}
