//! The open tree of a packer, in boxes: at most 40 bytes a node below the root.
ghost use Rattle.std.specs.Prelude.{◌≡◌, ◌≤◌, ◌+◌, ◌==◌, if◌then◌else◌, length, IfOk, OnOk, IsTrue, ◌↔◌};
ghost use Rattle.bti_nodes.specs.Spelling.{bytes_in, outline_size, distant};
ghost use Rattle.page_packer.specs.Tree.{path};
ghost use Rattle.page_packer.specs.Sound.{Ascend, SoundUnder};
ghost use Rattle.page_packer.specs.Boxes.{branches_of, and_last, with_path, EndsUnder, capped, IsWeighed, IsKept, Sees};

use bti_nodes::{Outline, Payload, outline_weight};
use key_types::NoMemory;
use std::alloc::Global;
use std::mem;

/// The branches of a node. The last one is in front, since keys ascend.
#[cycle(branches)]
#[derive(Drop)]
pub enum Link {
    End,
    Last(Box<Branch>),
}

/// A branch and the node below it. Where no key ends, the payload is empty. The weight is that of the subtree, cut at
/// 4,097; `so_far` is what is seen of this branch and those before it. Both are kept up but along the last branches.
#[cycle(branches)]
#[derive(Drop)]
pub struct Branch {
    pub byte: u8,
    pub weight: u16,
    pub so_far: Weighed,
    pub payload: Payload,
    pub children: Link,
    pub before: Link,
}

/// No payload.
pub const NO_PAYLOAD: Payload = Payload {
    count: 0,
    bytes: [0; 7],
};

/// The branches before, and behind them one that leads along the rest of a key alone.
fn path(
    alloc: Global,
    before: Link,
    byte: u8,
    rest: &[u8],
    payload: Payload,
) -> Result<Link, NoMemory>
    requires { IsWeighed before }
    ensures kept { IfOk result (λ link. IsKept link) }
    ensures path { IfOk result (λ link. branches_of link ≡ and_last (branches_of before) byte (path rest.now (bytes_in payload))) }
{
    let (payload, children) = match rest {
        [] => (payload, Link::End),
        [next, after @ ..] => (NO_PAYLOAD, path(alloc, Link::End, *next, after, payload)?),
    };
    let branch = Branch {
        byte,
        weight: 0,
        so_far: NOTHING,
        payload,
        children,
        before,
    };
    Ok(Link::Last(Box::new(alloc, branch)?))
}

/// Puts a branch behind the others, which leads along the rest of a key alone.
fn put_behind(
    alloc: Global,
    link: &mut Link,
    byte: u8,
    rest: &[u8],
    payload: Payload,
) -> Result<(), NoMemory>
    requires { IsWeighed link.old }
    ensures kept { OnOk result (IsKept link.new) }
    ensures behind { OnOk result (branches_of link.new ≡ and_last (branches_of link.old) byte (path rest.now (bytes_in payload))) }
{
    let before = mem::replace(link, Link::End);
    *link = path(alloc, before, byte, rest, payload)?;
    Ok(())
}

/// Adds a key that is above all others.
pub fn add_key(alloc: Global, link: &mut Link, key: &[u8], payload: Payload) -> Result<(), NoMemory>
    requires { IsWeighed link.old }
    ensures kept { OnOk result (IsKept link.new) }
    ensures added { OnOk result (branches_of link.new ≡ with_path (branches_of link.old) key.now (bytes_in payload)) }
{
    let (byte, rest) = match key {
        [] => return Ok(()),
        [byte, rest @ ..] => (*byte, rest),
    };
    if !ends_under(link, byte) {
        return put_behind(alloc, link, byte, rest, payload);
    }
    match link {
        Link::End => Ok(()),
        Link::Last(branch) => {
            let branch: &mut Branch = branch;
            if rest.is_empty() {
                branch.payload = payload;
                Ok(())
            } else {
                add_key(alloc, &mut branch.children, rest, payload)
            }
        }
    }
}

/// Whether the last branch is under that byte.
fn ends_under(link: &Link, byte: u8) -> bool
    ensures { IsTrue result ↔ EndsUnder link.now byte }
{
    match link {
        Link::End => false,
        Link::Last(branch) => branch.byte == byte,
    }
}

/// What a node's choice of type sees of branches, and their capped weight.
#[derive(Clone, Copy)]
pub struct Weighed {
    pub weight: u16,
    pub outline: Outline,
}

/// What is seen of no branches.
const NOTHING: Weighed = Weighed {
    weight: 0,
    outline: Outline {
        payload: 0,
        count: 0,
        first: 0,
        last: 0,
        greatest: 0,
    },
};

/// What is seen of branches that are weighed.
pub fn seen_of(link: &Link) -> Weighed
    requires { IsWeighed link.now }
    ensures { Sees result (branches_of link.now) }
{
    match link {
        Link::End => NOTHING,
        Link::Last(branch) => branch.so_far,
    }
}

/// Weighs the subtrees of branches, along the last ones.
pub fn weigh(link: &mut Link) -> Weighed
    requires { IsKept link.old }
    ensures same { branches_of link.new ≡ branches_of link.old }
    ensures weighed { Ascend 0 (branches_of link.old) → SoundUnder (branches_of link.old) → IsWeighed link.new }
    ensures seen { Ascend 0 (branches_of link.old) → SoundUnder (branches_of link.old) → Sees result (branches_of link.old) }
{
    match link {
        Link::End => NOTHING,
        Link::Last(branch) => {
            let branch: &mut Branch = branch;
            let below = weigh(&mut branch.children);
            let before = seen_of(&branch.before);
            let weight = subtree_weight(below, &branch.payload);
            let so_far = with_branch(before, branch.byte, weight);
            branch.weight = weight;
            branch.so_far = so_far;
            so_far
        }
    }
}

/// The bytes of a payload in a box.
pub fn payload_bytes(payload: &Payload) -> &[u8]
    ensures bytes { result.now ≡ bytes_in payload.now }
    ensures short { length result.now ≤ 7 }
{
    let (front, _) = payload
        .bytes
        .as_slice()
        .split_at(usize::from(payload.count).min(7));
    front
}

/// The capped weight of a node with that payload above weighed branches.
pub fn subtree_weight(below: Weighed, payload: &Payload) -> u16
    ensures { result ≡ capped (below.weight + outline_size (distant (record below.outline { payload = length (bytes_in payload.now) }))) }
{
    let own = outline_weight(&Outline {
        payload: payload_bytes(payload).len(),
        ..below.outline
    });
    (usize::from(below.weight) + own).min(4097) as u16
}

/// Branches with one more behind them.
fn with_branch(before: Weighed, byte: u8, weight: u16) -> Weighed
    ensures weight { result.weight ≡ capped (before.weight + weight) }
    ensures outline { before.outline.count ≤ 256 → result.outline ≡ record before.outline { count = before.outline.count + 1; first = if before.outline.count == 0 then byte else before.outline.first; last = byte } }
{
    let first = if before.outline.count == 0 {
        byte
    } else {
        before.outline.first
    };
    Weighed {
        weight: (u32::from(before.weight) + u32::from(weight)).min(4097) as u16,
        outline: Outline {
            count: before.outline.count.saturating_add(1),
            first,
            last: byte,
            ..before.outline
        },
    }
}
