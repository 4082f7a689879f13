//! The open edge: the heavy nodes along the last branches, whose other children stand, and the light subtree below them.
ghost use Rattle.std.specs.Prelude.{◌≡◌, ◌<◌, ◌≤◌, ◌+◌, ◌*◌, ◌^◌, ◌++◌, ◌∷◌, [], length, take, drop, OnOk, IfOk};
ghost use Rattle.page_packer.specs.Sound.{Sound, counts};
ghost use Rattle.page_packer.specs.Early.{early};
ghost use Rattle.page_packer.specs.Edge.{whole, left};
ghost use Rattle.page_packer.specs.Boxes.{branches_of, IsKept, IsWeighed};
ghost use Rattle.page_packer.specs.Levels.{tree_in, edge_over, closes_over, followed, AreLevels, laid_of};

use crate::boxes::{Branch, Link, payload_bytes, seen_of, subtree_weight, weigh};
use crate::lay::{close_in_page, lay};
use crate::work::{Stood, Work, only_position};
use bti_nodes::Payload;
use key_types::NoMemory;
use std::alloc::Global;
use std::mem;

/// A heavy node whose children but the last stand: its payload, these children, and the byte of the branch to the last.
#[derive(Drop)]
pub struct Level {
    pub byte: u8,
    pub payload: Payload,
    pub done: Vec<Stood>,
}

/// A subtree of which nothing was appended.
#[derive(Drop)]
pub struct Whole {
    pub payload: Payload,
    pub children: Link,
}

/// While the subtree is heavy, lays all children of its root but the last, and goes on in the last.
pub fn settle(
    alloc: Global,
    held: Whole,
    start: u64,
    levels: &mut Vec<Level>,
    work: &mut Work,
) -> Result<Whole, NoMemory>
    requires sound { Sound (tree_in held) }
    requires kept { IsKept held.children }
    requires few { counts (branches_of held.children) ≤ 2 ^ 31 }
    requires room { start + length work.old.out + 30 * counts (branches_of held.children) < 2 ^ 61 }
    requires none { work.old.stood.items ≡ [] }
    ensures bytes { OnOk result (work.new.out ≡ work.old.out ++ early (tree_in held) (start + length work.old.out)) }
    ensures edge { IfOk result (λ rest. edge_over levels.new.items (whole (tree_in rest)) ≡ edge_over levels.old.items (left (tree_in held) (start + length work.old.out))) }
    ensures weighed { IfOk result (λ rest. IsWeighed rest.children) }
    ensures none { OnOk result (work.new.stood.items ≡ []) }
{
    let mut payload = held.payload;
    let mut children = held.children;
    weigh(&mut children);
    'heavy: loop {
        if subtree_weight(seen_of(&children), &payload) <= 4096 {
            return Ok(Whole { payload, children });
        }
        match children {
            Link::End => {
                return Ok(Whole {
                    payload,
                    children: Link::End,
                });
            }
            Link::Last(branch) => {
                let Branch {
                    byte,
                    payload: below,
                    children: next,
                    before,
                    ..
                } = Box::into_inner(branch);
                lay(&before, start, work)?;
                let done = mem::replace(&mut work.stood, Vec::new(alloc));
                levels.push(Level {
                    byte,
                    payload,
                    done,
                })?;
                payload = below;
                children = next;
            }
        }
    }
}

/// Closes the levels from a depth on above a subtree that was laid, whose bytes are those of the work from position
/// `start` on, and answers where the node of the uppermost stands.
pub fn close_levels(
    levels: &mut Vec<Level>,
    depth: usize,
    first: u64,
    start: u64,
    work: &mut Work,
) -> Result<u64, NoMemory>
    requires deep { depth ≤ length levels.old.items }
    requires levels { AreLevels start (drop depth levels.old.items) }
    requires low { start ≤ first }
    requires high { first < start + length work.old.out }
    requires place { start < 2 ^ 60 + 2 ^ 40 }
    requires room { length (closes_over (drop depth levels.old.items) (laid_of work.old.out first) start).bytes < 2 ^ 38 }
    ensures bytes { OnOk result (work.new.out ≡ (closes_over (drop depth levels.old.items) (laid_of work.old.out first) start).bytes) }
    ensures root { IfOk result (λ root. root ≡ (closes_over (drop depth levels.old.items) (laid_of work.old.out first) start).root) }
    ensures levels { OnOk result (levels.new.items ≡ take depth levels.old.items) }
{
    let mut root = first;
    'close: while levels.len() > depth {
        if let Some(level) = levels.pop() {
            root = close_level(level, root, start, work)?;
        }
    }
    Ok(root)
}

/// Closes a level whose last child is a node that stands.
fn close_level(level: Level, last: u64, start: u64, work: &mut Work) -> Result<u64, NoMemory>
    requires levels { AreLevels start (level ∷ []) }
    requires low { start ≤ last }
    requires high { last < start + length work.old.out }
    requires place { start < 2 ^ 60 + 2 ^ 40 }
    requires room { length work.old.out < 2 ^ 38 }
    ensures bytes { OnOk result (work.new.out ≡ (closes_over (level ∷ []) (laid_of work.old.out last) start).bytes) }
    ensures root { IfOk result (λ root. root ≡ (closes_over (level ∷ []) (laid_of work.old.out last) start).root) }
{
    let Level {
        byte,
        payload,
        done,
    } = level;
    work.stood = done;
    work.stood.push(Stood {
        byte,
        position: last,
    })?;
    let at = start + work.out.len() as u64;
    close_in_page(0, payload_bytes(&payload), 0, at, work)?;
    Ok(only_position(work.stood.as_slice()))
}

/// How many levels a key follows.
pub fn follow(levels: &[Level], key: &[u8]) -> usize
    ensures value { result ≡ followed levels.now key.now }
    ensures few { result ≤ length levels.now }
{
    match levels {
        [] => 0,
        [level, more @ ..] => match key {
            [] => 0,
            [byte, rest @ ..] => {
                if level.byte == *byte {
                    1 + follow(more, rest)
                } else {
                    0
                }
            }
        },
    }
}
