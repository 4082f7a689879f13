//! The grammar of nodes, read: what bytes are a node, and why others are none.
ghost use Rattle.std.specs.Prelude.{◌≡◌, ◌<◌, ◌≤◌, ◌^◌, ◌+◌, ◌-◌, ◌*◌, ◌/◌, ◌%◌, length, None, Some, Option, IfNone, IsTrue, true};
ghost use Rattle.bti_nodes.specs.Grammar.{IsWidth, byte_at, places_of, body_len, payload_len, distance_at, ascends, in_order, each_below, points_back, payload_stands, refusal, all_point_back, KeepsView};

use crate::bits::{bits_at, byte_at};
use crate::node::NodeError;
use crate::table::{Kind, Shape, body_len};

/// How many places for children the bytes name.
pub fn places_of(shape: Shape, bytes: &[u8]) -> usize
    ensures value { result ≡ places_of shape bytes.now }
    ensures few { result ≤ 256 }
{
    match shape {
        Shape::Leaf => 0,
        Shape::Short | Shape::Single => 1,
        Shape::Sparse => usize::from(byte_at(bytes, 1)),
        Shape::Dense => usize::from(byte_at(bytes, 2)) + 1,
    }
}

/// How many bytes of payload, by the low four bits of the first byte.
pub fn payload_len(shape: Shape, low: u8) -> usize
    ensures value { result ≡ payload_len shape low }
    ensures short { result < 8 }
{
    if shape == Shape::Short || low >= 8 {
        0
    } else {
        usize::from(low)
    }
}

/// Whether the bytes ascend strictly.
fn ascends(bytes: &[u8]) -> bool
    ensures { result ≡ ascends bytes.now }
{
    let mut rest = bytes;
    'pairs: while let [a, after @ ..] = rest {
        if let [b, ..] = after {
            if a >= b {
                return false;
            }
        }
        rest = after;
    }
    true
}

/// Whether the bytes of a sparse node ascend, and those of a dense node end at FF.
#[tactic(auto, unfolding(crate::specs::Grammar::in_order))]
fn in_order(shape: Shape, places: usize, bytes: &[u8]) -> bool
    requires few { places ≤ 256 }
    requires stands { shape ≡ Shape.Sparse → 2 + places ≤ length bytes.now }
    ensures { result ≡ in_order shape places bytes.now }
{
    match shape {
        Shape::Sparse => {
            let (_, letters) = bytes.split_at(2);
            let (letters, _) = letters.split_at(places);
            places > 0 && ascends(letters)
        }
        Shape::Dense => usize::from(byte_at(bytes, 1)) + places <= 256,
        _ => true,
    }
}

/// The distance at a place, in bytes.
#[tactic(auto, unfolding(crate::specs::Grammar::distance_at))]
pub fn distance_at(kind: Kind, places: usize, bytes: &[u8], i: usize) -> u64
    requires width { IsWidth kind.shape kind.width }
    requires places { places ≡ places_of kind.shape bytes.now }
    requires few { places ≤ 256 }
    requires place { i < places }
    requires stands { body_len kind.shape kind.width places ≤ length bytes.now }
    ensures { result ≡ distance_at kind.shape kind.width places bytes.now i }
{
    let at = i * kind.width;
    match kind.shape {
        Shape::Leaf => 0,
        Shape::Short => bits_at(bytes, 4 + at, kind.width),
        Shape::Single => bits_at(bytes, 16 + at, kind.width),
        Shape::Sparse => bits_at(bytes, 16 + 8 * places + at, kind.width),
        Shape::Dense => bits_at(bytes, 24 + at, kind.width),
    }
}

/// Whether each distance may stand where it does in a node at that position.
#[tactic(auto, unfolding(crate::specs::Grammar::all_point_back))]
fn points_back(kind: Kind, places: usize, bytes: &[u8], position: u64) -> bool
    requires width { IsWidth kind.shape kind.width }
    requires places { places ≡ places_of kind.shape bytes.now }
    requires few { places ≤ 256 }
    requires stands { body_len kind.shape kind.width places ≤ length bytes.now }
    ensures { result ≡ all_point_back kind places bytes.now position }
{
    for i in 0..places {
        let distance = distance_at(kind, places, bytes, i);
        if !may_stand(kind.shape, places, position, i, distance) {
            return false;
        }
    }
    true
}

/// Whether that distance may stand at place `i` of a node at that position.
fn may_stand(shape: Shape, places: usize, position: u64, i: usize, distance: u64) -> bool
    requires few { places ≤ 256 }
    requires place { i < places }
    ensures { result ≡ points_back shape places position i distance }
{
    if shape == Shape::Dense && i > 0 && i + 1 < places {
        distance <= position
    } else {
        distance > 0 && distance <= position
    }
}

/// Whether the low four bits of the first byte name a payload that the type can have.
fn payload_stands(shape: Shape, low: u8) -> bool
    ensures { result ≡ payload_stands shape low }
{
    match shape {
        Shape::Leaf => low > 0 && low < 8,
        Shape::Short => true,
        _ => low < 8,
    }
}

/// The first reason why no node begins with the bytes.
pub fn refusal(kind: Kind, places: usize, bytes: &[u8], position: u64) -> Option<NodeError>
    requires some { 0 < length bytes.now }
    requires width { IsWidth kind.shape kind.width }
    requires places { places ≡ places_of kind.shape bytes.now }
    requires few { places ≤ 256 }
    ensures refused { result ≡ refusal kind places bytes.now position }
    ensures holds { IfNone result (KeepsView kind places bytes.now) }
    ensures back { IfNone result (IsTrue (all_point_back kind places bytes.now position)) }
{
    let low = bytes[0] & 15;
    if bytes.len() < body_len(kind, places) + payload_len(kind.shape, low) {
        return Some(NodeError::PastPage);
    }
    if !in_order(kind.shape, places, bytes) {
        return Some(NodeError::BadOrder);
    }
    if !points_back(kind, places, bytes, position) {
        return Some(NodeError::BadPointer);
    }
    if !payload_stands(kind.shape, low) {
        return Some(NodeError::BadPayload);
    }
    None
}
