//! The paths of the trie of an index file, one after the other. The plain check of a table goes over them.
use crate::node::Child;
use crate::reader_error::ReaderError;
use crate::trie::Trie;
use crate::wrong::{Other, Wrong, clash_at, sound};
use std::alloc::Global;

/// A node that is still to come, and the path to it.
#[derive(Drop)]
struct Step {
    at: u64,
    path: Vec<u8>,
}

/// A path, the node where it ends, and the payload there.
#[derive(Drop)]
pub struct Hit<'f> {
    pub path: Vec<u8>,
    pub node: u64,
    pub payload: &'f [u8],
}

/// The paths of a trie that are still to come: the nodes from which they go on, the next one last.
#[derive(Drop)]
pub struct Paths<'f> {
    trie: Trie<'f>,
    ahead: Vec<Step>,
}

impl<'f> Paths<'f> {
    pub fn new(alloc: Global, trie: Trie<'f>) -> Result<Paths<'f>, ReaderError> {
        let mut ahead = Vec::new(alloc);
        ahead.push(Step {
            at: trie.root,
            path: Vec::new(alloc),
        })?;
        Ok(Paths { trie, ahead })
    }

    fn push_children(
        &mut self,
        alloc: Global,
        path: &[u8],
        children: &[Child],
    ) -> Result<(), ReaderError> {
        for child in children.iter().rev() {
            let mut longer = path.to_vec(alloc)?;
            longer.push(u8::try_from(child.byte).unwrap_or(0))?;
            self.ahead.push(Step {
                at: child.start,
                path: longer,
            })?;
        }
        Ok(())
    }

    /// The next path; a node without a payload has a child, which lies before it.
    fn next(&mut self, alloc: Global) -> Result<Option<Hit<'f>>, Wrong> {
        for _ in 0..self.trie.root.saturating_add(1) {
            let Some(step) = self.ahead.pop() else {
                return Ok(None);
            };
            let node = sound(self.trie.node(alloc, step.at))?;
            self.push_children(alloc, step.path.as_slice(), node.children.as_slice())?;
            if let Some(payload) = node.payload {
                return Ok(Some(Hit {
                    path: step.path,
                    node: step.at,
                    payload,
                }));
            }
        }
        Ok(None)
    }

    /// The next path, which is to be there.
    pub fn given(&mut self, alloc: Global) -> Result<Hit<'f>, Wrong> {
        match self.next(alloc)? {
            Some(hit) => Ok(hit),
            None => Err(clash_at(self.trie.part, self.trie.root, Other::Path)),
        }
    }

    /// Looks whether no path more is there.
    pub fn end(&mut self, alloc: Global) -> Result<(), Wrong> {
        match self.next(alloc)? {
            Some(hit) => Err(clash_at(self.trie.part, hit.node, Other::Path)),
            None => Ok(()),
        }
    }
}
