//! Searches in the trie of an index file. The plain reader of a table makes them.
use crate::bytes::byte;
use crate::fault::Fault;
use crate::node::{Child, Node, node_at};
use crate::reader_error::ReaderError;
use std::alloc::Global;

/// What a search finds: the payload's bytes, or none, or the first node that is damaged.
pub type Found<'f> = Result<Option<&'f [u8]>, Fault>;

/// An index file: its part of the table, its bytes, and where the root of the trie begins.
#[derive(Clone, Copy)]
pub struct Trie<'f> {
    pub part: &'static str,
    pub file: &'f [u8],
    pub root: u64,
}

/// The child of this byte.
fn child_at(children: &[Child], byte: u64) -> Option<u64> {
    for child in children {
        if child.byte == byte {
            return Some(child.start);
        }
    }
    None
}

/// The greatest child below this byte.
fn child_below(children: &[Child], byte: u64) -> Option<u64> {
    let mut found = None;
    for child in children {
        if child.byte < byte {
            found = Some(child.start);
        }
    }
    found
}

/// The greatest path that a search has passed, not above its key: it ends at a node, or below a child.
#[derive(Clone, Copy)]
enum Passed<'f> {
    None,
    Payload(&'f [u8]),
    Below(u64),
}

impl<'f> Trie<'f> {
    /// The node at a position of the file, or its damage.
    pub fn node(
        &self,
        alloc: Global,
        position: u64,
    ) -> Result<Result<Node<'f>, Fault>, ReaderError> {
        match node_at(alloc, self.file, position)? {
            Ok(node) => Ok(Ok(node)),
            Err(cause) => Ok(Err(Fault {
                part: self.part,
                position,
                cause,
            })),
        }
    }

    /// The payload whose path begins the key, the first on the way.
    pub fn exact(&self, alloc: Global, key: &[u8]) -> Result<Found<'f>, ReaderError> {
        let mut at = self.root;
        for i in 0..(key.len() as u64).saturating_add(1) {
            let node = match self.node(alloc, at)? {
                Ok(node) => node,
                Err(fault) => return Ok(Err(fault)),
            };
            if node.payload.is_some() {
                return Ok(Ok(node.payload));
            }
            let next = byte(key, i).and_then(|b| child_at(node.children.as_slice(), u64::from(b)));
            match next {
                Some(start) => at = start,
                None => return Ok(Ok(None)),
            }
        }
        Ok(Ok(None))
    }

    /// The payload of the last path from a node on.
    fn last(&self, alloc: Global, from: u64) -> Result<Found<'f>, ReaderError> {
        let mut at = from;
        for _ in 0..from.saturating_add(1) {
            let node = match self.node(alloc, at)? {
                Ok(node) => node,
                Err(fault) => return Ok(Err(fault)),
            };
            match node.children.as_slice().last() {
                Some(child) => at = child.start,
                None => return Ok(Ok(node.payload)),
            }
        }
        Ok(Ok(None))
    }

    /// The payload of the greatest path that isn't above the key.
    pub fn floor(&self, alloc: Global, key: &[u8]) -> Result<Found<'f>, ReaderError> {
        let mut at = self.root;
        let mut passed = Passed::None;
        for i in 0..(key.len() as u64).saturating_add(1) {
            let node = match self.node(alloc, at)? {
                Ok(node) => node,
                Err(fault) => return Ok(Err(fault)),
            };
            if let Some(payload) = node.payload {
                passed = Passed::Payload(payload);
            }
            let Some(b) = byte(key, i) else {
                break;
            };
            if let Some(start) = child_below(node.children.as_slice(), u64::from(b)) {
                passed = Passed::Below(start);
            }
            match child_at(node.children.as_slice(), u64::from(b)) {
                Some(start) => at = start,
                None => break,
            }
        }
        match passed {
            Passed::None => Ok(Ok(None)),
            Passed::Payload(payload) => Ok(Ok(Some(payload))),
            Passed::Below(start) => self.last(alloc, start),
        }
    }
}
