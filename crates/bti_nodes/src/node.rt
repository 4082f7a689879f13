//! What a node is made of.
ghost use Rattle.std.specs.Prelude.{◌≡◌, ◌≤◌};

use key_types::ListOf;
use thiserror::Error;

/// A payload: the first `count` of the bytes, at most 7. A count of 0 is no payload.
#[derive(Clone, Copy, Debug, PartialEq, Eq)]
pub struct Payload {
    pub count: u8,
    pub bytes: [u8; 7],
}

impl Payload {
    ghost use Rattle.bti_nodes.specs.Spelling.{bytes_in};

    /// The bytes of the payload.
    pub fn as_slice(&self) -> &[u8]
        requires { self.now.count ≤ 7 }
        ensures { result.now ≡ bytes_in self.now }
    {
        let (front, _) = self.bytes.as_slice().split_at(usize::from(self.count));
        front
    }
}

/// A child under a transition byte, which begins `distance` bytes before its parent.
#[derive(Clone, Copy, Debug, PartialEq, Eq)]
pub struct Child {
    pub byte: u8,
    pub distance: u64,
}

/// The children of a node.
pub type ChildList = ListOf<Child>;

/// What a node is made of: its payload, and its children by ascending byte.
#[derive(Debug, Drop)]
pub struct NodeParts {
    pub payload: Payload,
    pub children: ChildList,
}

/// Why no node begins at a place of a page.
#[derive(Clone, Copy, Debug, PartialEq, Eq, Error)]
pub enum NodeError {
    /// The bytes of the node go past the page.
    #[error("the node goes past its page")]
    PastPage,
    /// A sparse node without bytes or whose bytes don't ascend, or a dense node that passes the byte FF.
    #[error("the node's transition bytes don't ascend")]
    BadOrder,
    /// A distance 0 where a child has to stand, or one that leads before the start of the file.
    #[error("a child of the node doesn't stand before it")]
    BadPointer,
    /// A node without payload and children, or payload bits above 7.
    #[error("the node's payload bits name no payload")]
    BadPayload,
}
