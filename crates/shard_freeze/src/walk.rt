//! A walk over a trie in the order of keys. The cursor keeps one, and moves it from record to record.
//!
//! The walk's key is the path of the pointer that it is at. On the way to it lie nodes of which children under greater
//! bytes are left. What is left to list is the same after every step, also where a step finds no memory.

ghost use Rattle.std.specs.Prelude.{◌≡◌, ◌≢◌, ◌<◌, ◌≤◌, [], length, Some, IsTrue, IfOk, OnOk, OnErr};
ghost use Rattle.cell_layout.specs.declared.Kind.TheVariants.{Content};
ghost use Rattle.cell_layout.specs.Pointers.{kind_at};
ghost use Rattle.trie_image.specs.Image.{root_of};
ghost use Rattle.trie_image.specs.WellFormed.{HasLedger};
ghost use Rattle.shard_freeze.specs.Walk.{StandsInTrie, SameLeft, size_of, IsSettled, whole_level, kept_levels};

use crate::edges::{least_child, pointer_in};
use cell_layout::{Kind, Ptr, kind_of};
use key_types::NoMemory;
use std::alloc::Global;
use trie_rule::Words;

/// A node on the way. Its children under the bytes from `next` on are left; from 256 on there are none. `depth` is the
/// length of its path.
#[derive(Clone, Copy, PartialEq, Eq, Debug)]
pub struct Level {
    pub node: u32,
    pub next: u32,
    pub depth: usize,
}

/// The pointer that the walk is at, or 0 where it goes on with the last node on the way; its path; and the nodes on the
/// way, of which `top` is the last one.
#[derive(Debug, Drop)]
pub struct Walk {
    pub key: Vec<u8>,
    pub below: Vec<Level>,
    pub top: Level,
    pub here: u32,
}

/// A level of which nothing is left.
const PASSED: Level = Level {
    node: 0,
    next: 256,
    depth: 0,
};

impl Walk {
    /// The walk at the root.
    pub fn at_root(alloc: Global, words: &Words) -> Walk
        requires image { HasLedger words.now.words }
        ensures key { result.key.items ≡ [] }
        ensures here { result.here ≡ root_of words.now.words }
        ensures below { result.below.items ≡ [] }
        ensures top { 256 ≤ result.top.next }
        ensures stands { StandsInTrie words.now.words result }
    {
        Walk {
            key: Vec::new(alloc),
            below: Vec::new(alloc),
            top: PASSED,
            here: pointer_in(words, 0, 2),
        }
    }

    /// Makes a node the last one on the way, with all of its children left.
    pub fn open(&mut self, node: u32) -> Result<(), NoMemory>
        ensures key { self.new.key.items ≡ self.old.key.items }
        ensures here { self.new.here ≡ self.old.here }
        ensures top { OnOk result (self.new.top ≡ whole_level node (length self.old.key.items)) }
        ensures below { OnOk result (self.new.below.items ≡ kept_levels self.old.below.items self.old.top) }
        ensures same { OnErr result (self.new.top ≡ self.old.top) }
        ensures none { OnErr result (self.new.below.items ≡ self.old.below.items) }
    {
        if self.top.next < 256 {
            self.below.push(self.top)?;
        }
        self.top = Level {
            node,
            next: 0,
            depth: self.key.len(),
        };
        Ok(())
    }

    /// Opens the node that the walk is at; a prefix cell's record comes before its node.
    fn visit(&mut self, words: &Words) -> Result<(), NoMemory>
        requires image { HasLedger words.now.words }
        requires stands { StandsInTrie words.now.words self.old }
        requires there { self.old.here ≢ 0 }
        requires node { kind_at self.old.here ≢ Some Content }
        ensures stands { StandsInTrie words.now.words self.new }
        ensures left { SameLeft words.now.words self.old self.new }
        ensures falls { OnOk result (size_of self.new < size_of self.old) }
    {
        if kind_of(Ptr(self.here)) == Some(Kind::Prefix) {
            let cell = self.here / 32;
            self.open(pointer_in(words, cell, 1))?;
            self.here = pointer_in(words, cell, 0);
        } else {
            self.open(self.here)?;
            self.here = 0;
        }
        Ok(())
    }

    /// Goes to the least child that is left of the last node, or passes that node where none is.
    fn enter(&mut self, words: &Words) -> Result<(), NoMemory>
        requires image { HasLedger words.now.words }
        requires stands { StandsInTrie words.now.words self.old }
        requires none { self.old.here ≡ 0 }
        requires more { self.old.top.next < 256 }
        ensures stands { StandsInTrie words.now.words self.new }
        ensures left { SameLeft words.now.words self.old self.new }
        ensures falls { OnOk result (size_of self.new < size_of self.old) }
    {
        match least_child(words, self.top.node, self.top.next) {
            Some(edge) => {
                self.key.truncate(self.top.depth);
                self.key.push(edge.byte)?;
                self.top.next = edge.byte as u32 + 1;
                self.here = edge.to;
            }
            None => self.top.next = 256,
        }
        Ok(())
    }

    /// One step on, or none where the walk is at a record or at its end.
    fn step(&mut self, words: &Words) -> Result<bool, NoMemory>
        requires image { HasLedger words.now.words }
        requires stands { StandsInTrie words.now.words self.old }
        ensures stands { StandsInTrie words.now.words self.new }
        ensures left { SameLeft words.now.words self.old self.new }
        ensures falls { IfOk result (λ more. IsTrue more → size_of self.new < size_of self.old) }
        ensures settled { IfOk result (λ more. (IsTrue more → ⊥) → IsSettled self.new) }
    {
        if self.here != 0 {
            if kind_of(Ptr(self.here)) == Some(Kind::Content) {
                return Ok(false);
            }
            self.visit(words)?;
        } else if self.top.next < 256 {
            self.enter(words)?;
        } else {
            match self.below.pop() {
                Some(level) => self.top = level,
                None => return Ok(false),
            }
        }
        Ok(true)
    }

    /// Goes on to the next record, or to the end.
    pub fn settle(&mut self, words: &Words) -> Result<(), NoMemory>
        requires image { HasLedger words.now.words }
        requires stands { StandsInTrie words.now.words self.old }
        ensures stands { StandsInTrie words.now.words self.new }
        ensures left { SameLeft words.now.words self.old self.new }
        ensures settled { OnOk result (IsSettled self.new) }
    {
        'steps: loop {
            if !self.step(words)? {
                return Ok(());
            }
        }
    }
}
