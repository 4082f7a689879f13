//! One key more at the open edge.
ghost use Rattle.std.specs.Prelude.{◌≡◌, ◌<◌, ◌≤◌, ◌+◌, ◌^◌, [], length, drop, get_or, OnOk, IfOk};
ghost use Rattle.bti_nodes.specs.Spelling.{bytes_in};
ghost use Rattle.page_packer.specs.Tree.{IsBelow, with_key, path};
ghost use Rattle.page_packer.specs.Sound.{Sound, IsFull, count};
ghost use Rattle.page_packer.specs.Layout.{lay};
ghost use Rattle.page_packer.specs.Boxes.{IsKept, IsWeighed};
ghost use Rattle.page_packer.specs.Edge.{and_stood, whole, closes, with_more};
ghost use Rattle.page_packer.specs.Levels.{tree_in, edge_over, closes_over, last_over, AreLevels, IsParted};

use crate::boxes::{Branch, Link, NO_PAYLOAD, add_key, seen_of, weigh};
use crate::edge::{Level, Whole, close_levels, follow, settle};
use crate::lay::lay;
use crate::work::{Stood, Work, only_position};
use bti_nodes::Payload;
use key_types::NoMemory;
use std::alloc::Global;

/// A subtree with one key more, which is above all others or is the subtree's own.
pub fn extend(alloc: Global, held: Whole, key: &[u8], payload: Payload) -> Result<Whole, NoMemory>
    requires { IsWeighed held.children }
    ensures kept { IfOk result (λ more. IsKept more.children) }
    ensures tree { IfOk result (λ more. tree_in more ≡ with_key (tree_in held) key.now (bytes_in payload)) }
{
    let Whole {
        payload: own,
        mut children,
    } = held;
    if key.is_empty() {
        return Ok(Whole { payload, children });
    }
    add_key(alloc, &mut children, key, payload)?;
    Ok(Whole {
        payload: own,
        children,
    })
}

/// Lays a subtree at the start of the empty work, and answers where its node stands.
pub fn lay_whole(alloc: Global, held: Whole, start: u64, work: &mut Work) -> Result<u64, NoMemory>
    requires sound { Sound (tree_in held) }
    requires weighed { IsWeighed held.children }
    requires full { IsFull (tree_in held) }
    requires few { count (tree_in held) ≤ 2 ^ 31 }
    requires start { start < 2 ^ 60 + 2 ^ 40 }
    requires out { work.old.out ≡ [] }
    requires stood { work.old.stood.items ≡ [] }
    ensures bytes { OnOk result (work.new.out ≡ (lay (tree_in held) start).bytes) }
    ensures root { IfOk result (λ root. root ≡ (lay (tree_in held) start).root) }
{
    let branch = Branch {
        byte: 0,
        weight: 0,
        so_far: seen_of(&Link::End),
        payload: held.payload,
        children: held.children,
        before: Link::End,
    };
    let mut top = Link::Last(Box::new(alloc, branch)?);
    weigh(&mut top);
    lay(&top, start, work)?;
    Ok(only_position(work.stood.as_slice()))
}

/// Closes what a key leaves: the subtree and the levels below that depth. The last child of the level there stands, and
/// the rest of the key is the subtree under its byte.
pub fn part(
    alloc: Global,
    levels: &mut Vec<Level>,
    depth: usize,
    held: Whole,
    key: &[u8],
    payload: Payload,
    start: u64,
    work: &mut Work,
) -> Result<Whole, NoMemory>
    requires deep { depth < length levels.old.items }
    requires some { depth < length key.now }
    requires levels { AreLevels start levels.old.items }
    requires sound { Sound (tree_in held) }
    requires weighed { IsWeighed held.children }
    requires full { IsFull (tree_in held) }
    requires few { count (tree_in held) ≤ 2 ^ 31 }
    requires start { start < 2 ^ 60 + 2 ^ 40 }
    requires out { work.old.out ≡ [] }
    requires stood { work.old.stood.items ≡ [] }
    requires room { length (closes_over (drop (depth + 1) levels.old.items) (lay (tree_in held) start) start).bytes < 2 ^ 38 }
    ensures bytes { OnOk result (work.new.out ≡ (closes_over (drop (depth + 1) levels.old.items) (lay (tree_in held) start) start).bytes) }
    ensures stood { OnOk result (work.new.stood.items ≡ []) }
    ensures kept { IfOk result (λ rest. IsKept rest.children) }
    ensures tree { IfOk result (λ rest. tree_in rest ≡ path (drop (depth + 1) key.now) (bytes_in payload)) }
    ensures levels { OnOk result (IsParted levels.old.items levels.new.items depth (get_or key.now depth 0) (closes_over (drop (depth + 1) levels.old.items) (lay (tree_in held) start) start).root) }
{
    let first = lay_whole(alloc, held, start, work)?;
    let root = close_levels(levels, depth + 1, first, start, work)?;
    if let Some(level) = levels.pop() {
        let stands = with_stood(level, root, key[depth])?;
        levels.push(stands)?;
    }
    work.stood.clear();
    let (_, rest) = key.split_at(depth + 1);
    let empty = Whole {
        payload: NO_PAYLOAD,
        children: Link::End,
    };
    extend(alloc, empty, rest, payload)
}

/// A level whose last child stands, and another under a greater byte begins.
fn with_stood(level: Level, position: u64, next: u8) -> Result<Level, NoMemory>
    ensures byte { IfOk result (λ more. more.byte ≡ next) }
    ensures payload { IfOk result (λ more. more.payload ≡ level.payload) }
    ensures done { IfOk result (λ more. more.done.items ≡ and_stood level.done.items level.byte position) }
{
    let Level {
        byte,
        payload,
        mut done,
    } = level;
    done.push(Stood { byte, position })?;
    Ok(Level {
        byte: next,
        payload,
        done,
    })
}

/// One key more, which is above all others: what stands then is appended to the empty work.
pub fn add_more(
    alloc: Global,
    levels: &mut Vec<Level>,
    held: Whole,
    key: &[u8],
    payload: Payload,
    start: u64,
    work: &mut Work,
) -> Result<Whole, NoMemory>
    requires below { IsBelow (last_over levels.old.items (tree_in held)) key.now }
    requires paid { 0 < payload.count }
    requires short { payload.count ≤ 7 }
    requires levels { AreLevels start levels.old.items }
    requires sound { Sound (tree_in held) }
    requires weighed { IsWeighed held.children }
    requires full { 0 < length levels.old.items → IsFull (tree_in held) }
    requires few { count (tree_in held) + length key.now < 2 ^ 31 }
    requires start { start < 2 ^ 60 + 2 ^ 40 }
    requires out { work.old.out ≡ [] }
    requires stood { work.old.stood.items ≡ [] }
    requires room { length (closes (edge_over levels.old.items (whole (tree_in held))) start).bytes < 2 ^ 38 }
    ensures bytes { OnOk result (work.new.out ≡ (with_more (edge_over levels.old.items (whole (tree_in held))) key.now (bytes_in payload) start).bytes) }
    ensures weighed { IfOk result (λ rest. IsWeighed rest.children) }
    ensures edge { IfOk result (λ rest. edge_over levels.new.items (whole (tree_in rest)) ≡ (with_more (edge_over levels.old.items (whole (tree_in held))) key.now (bytes_in payload) start).edge) }
    ensures stood { OnOk result (work.new.stood.items ≡ []) }
{
    let depth = follow(levels.as_slice(), key);
    if depth < levels.len() {
        let next = part(alloc, levels, depth, held, key, payload, start, work)?;
        return settle(alloc, next, start, levels, work);
    }
    let (_, rest) = key.split_at(depth);
    let next = extend(alloc, held, rest, payload)?;
    settle(alloc, next, start, levels, work)
}

/// Closes the whole edge.
pub fn close_all(
    alloc: Global,
    levels: &mut Vec<Level>,
    held: Whole,
    start: u64,
    work: &mut Work,
) -> Result<u64, NoMemory>
    requires levels { AreLevels start levels.old.items }
    requires sound { Sound (tree_in held) }
    requires weighed { IsWeighed held.children }
    requires full { IsFull (tree_in held) }
    requires few { count (tree_in held) ≤ 2 ^ 31 }
    requires start { start < 2 ^ 60 + 2 ^ 40 }
    requires out { work.old.out ≡ [] }
    requires stood { work.old.stood.items ≡ [] }
    requires room { length (closes (edge_over levels.old.items (whole (tree_in held))) start).bytes < 2 ^ 38 }
    ensures bytes { OnOk result (work.new.out ≡ (closes (edge_over levels.old.items (whole (tree_in held))) start).bytes) }
    ensures root { IfOk result (λ root. root ≡ (closes (edge_over levels.old.items (whole (tree_in held))) start).root) }
{
    let first = lay_whole(alloc, held, start, work)?;
    close_levels(levels, 0, first, start, work)
}
