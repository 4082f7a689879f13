//! The cells of a split node that takes the place of a full sparse node.

ghost use Rattle.std.specs.Prelude.{◌≡◌, ℕ, ◌+◌, ◌*◌, ◌^◌, ◌<◌, ◌≤◌, ◌++◌, length};
ghost use Rattle.std.specs.List.{list_any};
ghost use Rattle.trie_image.specs.Image.{word_of};
ghost use Rattle.cell_layout.specs.Cells.{pair, eight};
ghost use Rattle.trie_image.specs.Body.{seven, has_mid, has_leaf, mids_below, leaves_below, top_field, mid_field, leaf_field, top_words, mid_words, leaf_words, split_node_words};

use crate::exit::{pointer_in, word_at};
use crate::few_words::FewWords;
use crate::source::WordSource;
use cell_layout::{joined, sparse_find};

/// The bytes of a full sparse node and one more.
fn bytes_of_seven(word: u64, byte: u8) -> [u8; 7]
    ensures { result ≡ seven word byte }
{
    [
        byte,
        (word % 0x100) as u8,
        ((word >> 8) % 0x100) as u8,
        ((word >> 16) % 0x100) as u8,
        ((word >> 24) % 0x100) as u8,
        ((word >> 32) % 0x100) as u8,
        ((word >> 40) % 0x100) as u8,
    ]
}

fn mid_there(bytes: &[u8], index: u8) -> bool
    ensures { result ≡ has_mid bytes.now index }
{
    bytes.iter().any(|b| *b / 64 == index)
}

fn leaf_there(bytes: &[u8], group: u8) -> bool
    ensures { result ≡ has_leaf bytes.now group }
{
    bytes.iter().any(|b| *b / 8 == group)
}

fn count_mids(bytes: &[u8], index: u8) -> u32
    ensures count { result ≡ mids_below bytes.now index }
    ensures bound { result ≤ index }
{
    let mut count = 0;
    'mids: for i in 0..index {
        if mid_there(bytes, i) {
            count += 1;
        }
    }
    count
}

fn count_leaves(bytes: &[u8], group: u8) -> u32
    ensures count { result ≡ leaves_below bytes.now group }
    ensures bound { result ≤ group }
{
    let mut count = 0;
    'leaves: for g in 0..group {
        if leaf_there(bytes, g) {
            count += 1;
        }
    }
    count
}

/// The pointer in the top cell for a byte's first two bits.
#[tactic(auto, unfolding(crate::specs::Body::top_field))]
fn pointer_in_top(bytes: &[u8], top: u32, index: u8) -> u32
    requires small { top < 2 ^ 26 }
    requires index { index ≤ 4 }
    ensures { result ≡ top_field bytes.now top index }
{
    if mid_there(bytes, index) {
        32 * (top + 1 + count_mids(bytes, index)) + 28
    } else {
        0
    }
}

/// The pointer in a mid cell for a byte's first five bits.
#[tactic(auto, unfolding(crate::specs::Body::mid_field))]
fn pointer_in_mid(bytes: &[u8], top: u32, group: u8) -> u32
    requires small { top < 2 ^ 26 }
    requires group { group ≤ 32 }
    ensures { result ≡ mid_field bytes.now top group }
{
    if leaf_there(bytes, group) {
        32 * (top + 1 + count_mids(bytes, 4) + count_leaves(bytes, group)) + 28
    } else {
        0
    }
}

/// The child under a byte: the new one, or the sparse node's.
#[tactic(auto, unfolding(crate::specs::Body::leaf_field))]
fn child_under<W: WordSource>(
    from: &W,
    seat: &mut W::Seat,
    node: u32,
    byte: u8,
    entry: u32,
    other: u8,
) -> u32
    requires { W.may from.now seat.old }
    ensures child { result ≡ leaf_field (W.image from.now seat.old) node byte entry other }
    ensures same { seat.new ≡ seat.old }
{
    if other == byte {
        return entry;
    }
    let order = word_at(from, seat, node, 3);
    match sparse_find(order, other) {
        Some(slot) => pointer_in(from, seat, node, slot),
        None => 0,
    }
}

fn top_cell(bytes: &[u8], top: u32) -> [u64; 4]
    requires { top < 2 ^ 26 }
    ensures { result ≡ top_words bytes.now top }
{
    let low = joined(pointer_in_top(bytes, top, 0), pointer_in_top(bytes, top, 1));
    let high = joined(pointer_in_top(bytes, top, 2), pointer_in_top(bytes, top, 3));
    [low, high, 0, 0]
}

fn pair_in_mid(bytes: &[u8], top: u32, group: u8) -> u64
    requires small { top < 2 ^ 26 }
    requires group { group ≤ 31 }
    ensures { result ≡ pair (mid_field bytes.now top group) (mid_field bytes.now top (group + 1)) }
{
    joined(
        pointer_in_mid(bytes, top, group),
        pointer_in_mid(bytes, top, group + 1),
    )
}

fn mid_cell(bytes: &[u8], top: u32, index: u8) -> [u64; 4]
    requires small { top < 2 ^ 26 }
    requires index { index ≤ 3 }
    ensures { result ≡ eight (mid_field bytes.now top) (8 * index) }
{
    let group = 8 * index;
    [
        pair_in_mid(bytes, top, group),
        pair_in_mid(bytes, top, group + 2),
        pair_in_mid(bytes, top, group + 4),
        pair_in_mid(bytes, top, group + 6),
    ]
}

fn push_mids(out: &mut FewWords, bytes: &[u8], top: u32)
    requires top { top < 2 ^ 26 }
    requires seven { length bytes.now ≡ 7 }
    requires capacity { length out.old ≤ 32 }
    ensures { out.new ≡ out.old ++ mid_words bytes.now top 4 }
{
    'mids: for index in 0..4u8 {
        if mid_there(bytes, index) {
            out.push_cell(mid_cell(bytes, top, index));
        }
    }
}

fn pair_in_leaf<W: WordSource>(
    from: &W,
    seat: &mut W::Seat,
    node: u32,
    byte: u8,
    entry: u32,
    other: u8,
) -> u64
    requires may { W.may from.now seat.old }
    requires other { other ≤ 254 }
    ensures pair { result ≡ pair (leaf_field (W.image from.now seat.old) node byte entry other) (leaf_field (W.image from.now seat.old) node byte entry (other + 1)) }
    ensures same { seat.new ≡ seat.old }
{
    let low = child_under(from, seat, node, byte, entry, other);
    let high = child_under(from, seat, node, byte, entry, other + 1);
    joined(low, high)
}

fn leaf_cell<W: WordSource>(
    from: &W,
    seat: &mut W::Seat,
    node: u32,
    byte: u8,
    entry: u32,
    group: u8,
) -> [u64; 4]
    requires may { W.may from.now seat.old }
    requires group { group ≤ 31 }
    ensures cell { result ≡ eight (leaf_field (W.image from.now seat.old) node byte entry) (8 * group) }
    ensures same { seat.new ≡ seat.old }
{
    let other = 8 * group;
    let first = pair_in_leaf(from, seat, node, byte, entry, other);
    let second = pair_in_leaf(from, seat, node, byte, entry, other + 2);
    let third = pair_in_leaf(from, seat, node, byte, entry, other + 4);
    let fourth = pair_in_leaf(from, seat, node, byte, entry, other + 6);
    [first, second, third, fourth]
}

fn push_leaves<W: WordSource>(
    out: &mut FewWords,
    from: &W,
    seat: &mut W::Seat,
    node: u32,
    byte: u8,
    entry: u32,
    bytes: &[u8],
)
    requires may { W.may from.now seat.old }
    requires seven { length bytes.now ≡ 7 }
    requires capacity { length out.old ≤ 32 }
    ensures leaves { out.new ≡ out.old ++ leaf_words (W.image from.now seat.old) node byte entry bytes.now 32 }
    ensures same { seat.new ≡ seat.old }
{
    'leaves: for group in 0..32u8 {
        if leaf_there(bytes, group) {
            let cell = leaf_cell(from, seat, node, byte, entry, group);
            out.push_cell(cell);
        }
    }
}

/// The cells of a split node in place of a full sparse node, with one child more.
pub(crate) fn push_split_node<W: WordSource>(
    out: &mut FewWords,
    from: &W,
    seat: &mut W::Seat,
    node: u32,
    byte: u8,
    entry: u32,
    top: u32,
)
    requires may { W.may from.now seat.old }
    requires top { top < 2 ^ 26 }
    requires capacity { length out.old ≡ 0 }
    ensures words { out.new ≡ out.old ++ split_node_words (W.image from.now seat.old) node byte entry top }
    ensures same { seat.new ≡ seat.old }
{
    let bytes = bytes_of_seven(word_at(from, seat, node, 3), byte);
    out.push_cell(top_cell(&bytes, top));
    push_mids(out, &bytes, top);
    push_leaves(out, from, seat, node, byte, entry, &bytes);
}
