//! A node that was read, in the bytes of its page.
ghost use Rattle.std.specs.Prelude.{◌≡◌, ◌≢◌, ◌<◌, ◌≤◌, ◌+◌, ◌-◌, ◌%◌, ℕ, length, drop, get_or, None, Some, Ok, Err, Result, MatchOption, IfOk, IsTrue, true, map};
ghost use Rattle.std.specs.List.{range_with_len};
ghost use Rattle.bti_nodes.specs.Grammar.{Node, IsWidth, ascends, places_of, body_len, payload_len, letter_at, node_by, in_order, node_at, child_by, child_under, AllBack, Climbs, KeepsView};
ghost use Rattle.bti_nodes.specs.Children.{first_child, last_child, any, child_below, child_above, least_child, greatest_child, HaveBytes, HasPayloadOrChild};

use crate::bits::byte_at;
use crate::node::{Child, NodeError};
use crate::parse::{distance_at, payload_len, places_of, refusal};
use crate::table::{Kind, Shape, body_len, kind_of};
use std::marker::Model;

/// A node of the index, in the bytes of its page (after BtiFormat.md). Contracts see its payload and its places:
/// one for each child, and in a dense node one for each byte from the first to the last.
#[derive(Drop)]
pub struct NodeView<'a> {
    bytes: &'a [u8],
    kind: Kind,
    places: usize,
}

impl<'a> Model for NodeView<'a> {
    ghost use Rattle.std.specs.Prelude.{◌≡◌, ◌≤◌, ◌+◌, ◌%◌, length};
    ghost use Rattle.bti_nodes.specs.Grammar.{Node, KeepsView, node_by};

    ghost Value = { Node };

    ghost view = { λ v. node_by v.kind v.places v.bytes.now };

    ghost invariant = { λ v. KeepsView v.kind v.places v.bytes.now };
}

/// The node that begins at place `at` of a page, which is `position` bytes from the start of its file; or the first
/// reason why there is none. The page is borrowed.
#[tactic(auto, unfolding(crate::specs::Grammar::node_at))]
pub fn parse_node(page: &[u8], at: usize, position: u64) -> Result<NodeView<'_>, NodeError>
    requires within { at < length page.now }
    ensures node { result ≡ node_at (drop at page.now) position }
    ensures back { IfOk result (λ n. AllBack position n.places) }
    ensures climbs { IfOk result (λ n. Climbs 0 n.places) }
    ensures bytes { IfOk result (λ n. HaveBytes n.places) }
    ensures full { IfOk result (λ n. HasPayloadOrChild n.payload n.places) }
{
    let (_, bytes) = page.split_at(at);
    let kind = kind_of(bytes);
    let places = places_of(kind.shape, bytes);
    match refusal(kind, places, bytes, position) {
        Some(e) => Err(e),
        None => Ok(NodeView {
            bytes,
            kind,
            places,
        }),
    }
}

impl<'a> NodeView<'a> {
    /// The bytes of the payload, empty where there is none.
    #[tactic(auto, unfolding(crate::specs::Grammar::node_by))]
    pub fn payload(&self) -> &[u8]
        ensures payload { result.now ≡ self.now.payload }
        ensures short { length result.now < 8 }
    {
        let low = self.bytes[0] & 15;
        let (_, rest) = self.bytes.split_at(body_len(self.kind, self.places));
        let (payload, _) = rest.split_at(payload_len(self.kind.shape, low));
        payload
    }

    /// How many places for children there are, at most 256.
    pub fn places(&self) -> usize
        ensures { result ≡ length self.now.places }
    {
        self.places
    }

    /// The child at a place, and `None` exactly at a place of a dense node without child.
    pub fn child(&self, place: usize) -> Option<Child>
        requires { place < length self.now.places }
        ensures { result ≡ get_or self.now.places place None }
    {
        child_at(self.kind, self.places, self.bytes, place)
    }

    /// The child under a byte, and `None` exactly where there is none.
    #[tactic(auto, unfolding(crate::specs::Grammar::node_by))]
    pub fn find(&self, byte: u8) -> Option<Child>
        ensures { result ≡ child_under byte self.now.places }
    {
        find_by(self.kind, self.places, self.bytes, byte)
    }

    /// The child under the greatest byte that is less than a byte.
    #[tactic(auto, unfolding(crate::specs::Grammar::node_by))]
    pub fn below(&self, byte: u8) -> Option<Child>
        ensures { result ≡ child_below byte self.now.places }
    {
        find_below(self.kind, self.places, self.bytes, byte)
    }

    /// The child under the least byte that is greater than a byte.
    #[tactic(auto, unfolding(crate::specs::Grammar::node_by))]
    pub fn above(&self, byte: u8) -> Option<Child>
        ensures { result ≡ child_above byte self.now.places }
    {
        find_above(self.kind, self.places, self.bytes, byte)
    }

    /// The child under the least byte.
    #[tactic(auto, unfolding(crate::specs::Grammar::node_by))]
    pub fn first(&self) -> Option<Child>
        ensures { result ≡ least_child self.now.places }
    {
        first_from(self.kind, self.places, self.bytes, 0)
    }

    /// The child under the greatest byte.
    #[tactic(auto, unfolding(crate::specs::Grammar::node_by))]
    pub fn last(&self) -> Option<Child>
        ensures { result ≡ greatest_child self.now.places }
    {
        last_before(self.kind, self.places, self.bytes, self.places)
    }
}

/// The transition byte at a place.
#[tactic(auto, unfolding(crate::specs::Grammar::letter_at, crate::specs::Grammar::in_order))]
fn letter_at(kind: Kind, bytes: &[u8], i: usize) -> u8
    requires width { IsWidth kind.shape kind.width }
    requires few { i < places_of kind.shape bytes.now }
    requires order { IsTrue (in_order kind.shape (places_of kind.shape bytes.now) bytes.now) }
    ensures { result ≡ letter_at kind.shape kind.width bytes.now i }
{
    match kind.shape {
        Shape::Leaf => 0,
        Shape::Short => byte_at(bytes, (4 + kind.width) / 8),
        Shape::Single => byte_at(bytes, 1),
        Shape::Sparse => byte_at(bytes, 2 + i),
        Shape::Dense => byte_at(bytes, 1) + i as u8,
    }
}

/// The child at a place.
#[tactic(auto, unfolding(crate::specs::Grammar::child_by))]
fn child_at(kind: Kind, places: usize, bytes: &[u8], i: usize) -> Option<Child>
    requires holds { KeepsView kind places bytes.now }
    requires place { i < places }
    ensures { result ≡ child_by kind places bytes.now i }
{
    let distance = distance_at(kind, places, bytes, i);
    if distance == 0 {
        None
    } else {
        Some(Child {
            byte: letter_at(kind, bytes, i),
            distance,
        })
    }
}

/// The place whose transition byte is that byte.
#[tactic(auto, unfolding(crate::specs::Grammar::letter_at, crate::specs::Grammar::in_order))]
fn place_under(kind: Kind, places: usize, bytes: &[u8], byte: u8) -> Option<usize>
    requires { KeepsView kind places bytes.now }
    ensures { MatchOption result ((i : ℕ) → i < places → letter_at kind.shape kind.width bytes.now i ≢ byte) (λ i. (i < places) × (letter_at kind.shape kind.width bytes.now i ≡ byte)) }
{
    match kind.shape {
        Shape::Leaf => None,
        Shape::Sparse => {
            let (_, rest) = bytes.split_at(2);
            let (letters, _) = rest.split_at(places);
            place_among(letters, byte)
        }
        Shape::Dense => {
            let first = usize::from(byte_at(bytes, 1));
            let byte = usize::from(byte);
            if first <= byte && byte < first + places {
                Some(byte - first)
            } else {
                None
            }
        }
        _ => {
            if letter_at(kind, bytes, 0) == byte {
                Some(0)
            } else {
                None
            }
        }
    }
}

/// The place of a byte among ascending bytes.
fn place_among(letters: &[u8], byte: u8) -> Option<usize>
    requires { IsTrue (ascends letters.now) }
    ensures { MatchOption result ((i : ℕ) → i < length letters.now → get_or letters.now i 0 ≢ byte) (λ i. (i < length letters.now) × (get_or letters.now i 0 ≡ byte)) }
{
    match letters.binary_search(&byte) {
        Ok(i) => Some(i),
        Err(_) => None,
    }
}

/// The child under a byte.
fn find_by(kind: Kind, places: usize, bytes: &[u8], byte: u8) -> Option<Child>
    requires { KeepsView kind places bytes.now }
    ensures { result ≡ child_under byte (map (child_by kind places bytes.now) (range_with_len 0 places)) }
{
    match place_under(kind, places, bytes, byte) {
        Some(place) => child_at(kind, places, bytes, place),
        None => None,
    }
}

/// The node that begins at place `at` of a page, or past its end.
#[tactic(auto, unfolding(crate::specs::Grammar::node_at))]
pub fn node_of(page: &[u8], at: usize, position: u64) -> Result<NodeView<'_>, NodeError>
    ensures node { result ≡ node_at (drop at page.now) position }
    ensures back { IfOk result (λ n. AllBack position n.places) }
    ensures climbs { IfOk result (λ n. Climbs 0 n.places) }
    ensures bytes { IfOk result (λ n. HaveBytes n.places) }
    ensures full { IfOk result (λ n. HasPayloadOrChild n.payload n.places) }
{
    if at < page.len() {
        parse_node(page, at, position)
    } else {
        Err(NodeError::PastPage)
    }
}

/// How many of ascending bytes are less than a byte.
fn count_among(letters: &[u8], byte: u8) -> usize
    requires { IsTrue (ascends letters.now) }
    ensures within { result ≤ length letters.now }
    ensures less { (i : ℕ) → i < result → get_or letters.now i 0 < byte }
    ensures others { (i : ℕ) → result ≤ i → i < length letters.now → byte ≤ get_or letters.now i 0 }
{
    match letters.binary_search(&byte) {
        Ok(i) => i,
        Err(i) => i,
    }
}

/// How many places stand under bytes that are less than a byte.
#[tactic(auto, unfolding(crate::specs::Grammar::letter_at, crate::specs::Grammar::in_order))]
fn count_below(kind: Kind, places: usize, bytes: &[u8], byte: u8) -> usize
    requires { KeepsView kind places bytes.now }
    ensures within { result ≤ places }
    ensures less { (i : ℕ) → i < result → letter_at kind.shape kind.width bytes.now i < byte }
    ensures others { (i : ℕ) → result ≤ i → i < places → byte ≤ letter_at kind.shape kind.width bytes.now i }
{
    match kind.shape {
        Shape::Leaf => 0,
        Shape::Sparse => {
            let (_, rest) = bytes.split_at(2);
            let (letters, _) = rest.split_at(places);
            count_among(letters, byte)
        }
        Shape::Dense => {
            let first = byte_at(bytes, 1);
            if byte <= first {
                0
            } else {
                places.min(usize::from(byte - first))
            }
        }
        _ => {
            if letter_at(kind, bytes, 0) < byte {
                1
            } else {
                0
            }
        }
    }
}

/// How many places stand under bytes that are not greater than a byte.
fn count_to(kind: Kind, places: usize, bytes: &[u8], byte: u8) -> usize
    requires { KeepsView kind places bytes.now }
    ensures within { result ≤ places }
    ensures others { (i : ℕ) → i < result → letter_at kind.shape kind.width bytes.now i ≤ byte }
    ensures greater { (i : ℕ) → result ≤ i → i < places → byte < letter_at kind.shape kind.width bytes.now i }
{
    let count = count_below(kind, places, bytes, byte);
    if count < places && letter_at(kind, bytes, count) == byte {
        count + 1
    } else {
        count
    }
}

/// The first child at a place from `from` on.
fn first_from(kind: Kind, places: usize, bytes: &[u8], from: usize) -> Option<Child>
    requires holds { KeepsView kind places bytes.now }
    requires within { from ≤ places }
    ensures { result ≡ first_child any (map (child_by kind places bytes.now) (range_with_len from (places - from))) }
{
    for i in from..places {
        if let Some(child) = child_at(kind, places, bytes, i) {
            return Some(child);
        }
    }
    None
}

/// The last child at a place before `end`.
fn last_before(kind: Kind, places: usize, bytes: &[u8], end: usize) -> Option<Child>
    requires holds { KeepsView kind places bytes.now }
    requires within { end ≤ places }
    ensures { result ≡ last_child any (map (child_by kind places bytes.now) (range_with_len 0 end)) }
{
    let mut count = end;
    'places: while count > 0 {
        if let Some(child) = child_at(kind, places, bytes, count - 1) {
            return Some(child);
        }
        count -= 1;
    }
    None
}

/// The child under the greatest byte that is less than a byte.
fn find_below(kind: Kind, places: usize, bytes: &[u8], byte: u8) -> Option<Child>
    requires { KeepsView kind places bytes.now }
    ensures { result ≡ child_below byte (map (child_by kind places bytes.now) (range_with_len 0 places)) }
{
    last_before(kind, places, bytes, count_below(kind, places, bytes, byte))
}

/// The child under the least byte that is greater than a byte.
fn find_above(kind: Kind, places: usize, bytes: &[u8], byte: u8) -> Option<Child>
    requires { KeepsView kind places bytes.now }
    ensures { result ≡ child_above byte (map (child_by kind places bytes.now) (range_with_len 0 places)) }
{
    first_from(kind, places, bytes, count_to(kind, places, bytes, byte))
}
