//! A node of an index's trie, read by the table of the sixteen types.
use crate::bytes::{bits, byte, span};
use crate::reader_error::ReaderError;
use std::alloc::Global;

/// How many bits a distance has, by the type.
const BITS: [u8; 16] = [0, 4, 8, 12, 16, 8, 12, 16, 24, 40, 12, 16, 24, 32, 40, 64];

/// A child by its byte, and where its node begins.
#[derive(Clone, Copy)]
pub struct Child {
    pub byte: u64,
    pub start: u64,
}

/// A node: its children by ascending bytes, and the payload's bytes, where it has one.
#[derive(Drop)]
pub struct Node<'f> {
    pub children: Vec<Child>,
    pub payload: Option<&'f [u8]>,
}

fn width_of(kind: u8) -> u64 {
    u64::from(BITS.get(usize::from(kind)).copied().unwrap_or(0))
}

/// The byte at a place of the page, as a number.
fn value_at(page: &[u8], at: u64) -> u64 {
    u64::from(byte(page, at).unwrap_or(0))
}

/// How many bytes the node has before its payload, by its type and its bytes.
fn size_of(kind: u8, page: &[u8]) -> Option<u64> {
    let width = width_of(kind);
    match kind {
        0 => Some(1),
        1 => Some(2),
        2 | 3 => Some(3),
        4 => Some(4),
        5..=9 => {
            let count = u64::from(byte(page, 1)?);
            Some(
                count
                    .wrapping_mul(width)
                    .div_ceil(8)
                    .wrapping_add(count)
                    .wrapping_add(2),
            )
        }
        _ => {
            let places = u64::from(byte(page, 2)?).wrapping_add(1);
            Some(places.wrapping_mul(width).div_ceil(8).wrapping_add(3))
        }
    }
}

/// A place of a node: its byte, and how far back its child begins; 0 where it has none.
#[derive(Clone, Copy)]
struct Slot {
    byte: u64,
    distance: u64,
}

/// The one place of a node of types 1 to 4.
fn single(kind: u8, page: &[u8]) -> Slot {
    let low = value_at(page, 0) % 16;
    let first = value_at(page, 1);
    let second = value_at(page, 2);
    match kind {
        1 => Slot {
            byte: first,
            distance: low,
        },
        2 => Slot {
            byte: first,
            distance: second,
        },
        3 => Slot {
            byte: second,
            distance: low.wrapping_mul(256).wrapping_add(first),
        },
        _ => Slot {
            byte: first,
            distance: bits(page, 16, 16),
        },
    }
}

/// The places of a node of types 5 to 9, whose bytes stand before the distances.
fn sparse(alloc: Global, kind: u8, page: &[u8]) -> Result<Vec<Slot>, ReaderError> {
    let width = width_of(kind);
    let count = value_at(page, 1);
    let behind = count.wrapping_add(2).wrapping_mul(8);
    let mut slots = Vec::new(alloc);
    for i in 0..count {
        slots.push(Slot {
            byte: value_at(page, i.wrapping_add(2)),
            distance: bits(page, i.wrapping_mul(width).wrapping_add(behind), width),
        })?;
    }
    Ok(slots)
}

/// The places of a node of types 10 to 15, from its first byte on.
fn dense(alloc: Global, kind: u8, page: &[u8]) -> Result<Vec<Slot>, ReaderError> {
    let width = width_of(kind);
    let places = value_at(page, 2).wrapping_add(1);
    let mut slots = Vec::new(alloc);
    for i in 0..places {
        slots.push(Slot {
            byte: value_at(page, 1).wrapping_add(i),
            distance: bits(page, i.wrapping_mul(width).wrapping_add(24), width),
        })?;
    }
    Ok(slots)
}

/// All places of a node, by its type.
fn slots_of(alloc: Global, kind: u8, page: &[u8]) -> Result<Vec<Slot>, ReaderError> {
    match kind {
        0 => Ok(Vec::new(alloc)),
        1..=4 => Ok(vec![in alloc; single(kind, page)]?),
        5..=9 => sparse(alloc, kind, page),
        _ => dense(alloc, kind, page),
    }
}

/// Whether there are places where the type has some, and their bytes ascend up to 255.
fn ascend(kind: u8, slots: &[Slot]) -> bool {
    let mut least = 0u64;
    for slot in slots {
        if slot.byte < least || slot.byte > 255 {
            return false;
        }
        least = slot.byte.wrapping_add(1);
    }
    kind == 0 || !slots.is_empty()
}

/// Whether each distance leads to a place of the file, but for a dense node's places without a child.
fn lead(kind: u8, slots: &[Slot], position: u64) -> bool {
    let last = slots.len().saturating_sub(1);
    let mut i = 0usize;
    for slot in slots {
        let may_be_none = kind >= 10 && i > 0 && i < last;
        if slot.distance > position || (slot.distance == 0 && !may_be_none) {
            return false;
        }
        i = i.saturating_add(1);
    }
    true
}

/// What is wrong with the node first, where anything is.
fn wrong(kind: u8, low: u8, slots: &[Slot], position: u64) -> Option<&'static str> {
    if !ascend(kind, slots) {
        return Some("bad order");
    }
    if !lead(kind, slots, position) {
        return Some("bad pointer");
    }
    let bare = kind == 1 || kind == 3;
    if (kind == 0 && low == 0) || (!bare && low >= 8) {
        return Some("bad payload");
    }
    None
}

/// How many bytes the payload has; bits from 8 to 15 count as none.
fn payload_size(kind: u8, low: u8) -> u64 {
    if kind == 1 || kind == 3 || low >= 8 {
        0
    } else {
        u64::from(low)
    }
}

/// The rest of the page from a position on.
fn page_from(file: &[u8], position: u64) -> &[u8] {
    let end = (position / 4096).saturating_add(1).saturating_mul(4096);
    let end = end.min(file.len() as u64);
    file.get(position as usize..end as usize).unwrap_or(&[])
}

/// The children at those of the places that have one.
fn children_of(alloc: Global, slots: &[Slot], position: u64) -> Result<Vec<Child>, ReaderError> {
    let mut children = Vec::new(alloc);
    for slot in slots {
        if slot.distance > 0 {
            children.push(Child {
                byte: slot.byte,
                start: position.saturating_sub(slot.distance),
            })?;
        }
    }
    Ok(children)
}

/// The node at a position of the file, or what is wrong there.
pub fn node_at(
    alloc: Global,
    file: &[u8],
    position: u64,
) -> Result<Result<Node<'_>, &'static str>, ReaderError> {
    let page = page_from(file, position);
    let first = byte(page, 0).unwrap_or(0);
    let kind = first / 16;
    let low = first % 16;
    let size = size_of(kind, page).unwrap_or(u64::MAX);
    let count = payload_size(kind, low);
    let Some(payload) = span(page, size, count) else {
        return Ok(Err("past page"));
    };
    let slots = slots_of(alloc, kind, page)?;
    if let Some(cause) = wrong(kind, low, slots.as_slice(), position) {
        return Ok(Err(cause));
    }
    let children = children_of(alloc, slots.as_slice(), position)?;
    let payload = if count > 0 { Some(payload) } else { None };
    Ok(Ok(Node { children, payload }))
}
