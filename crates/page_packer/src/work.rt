//! The bytes of a layout while they are made.
ghost use Rattle.std.specs.Prelude.{◌≡◌, ◌≤◌, ◌<◌, ◌+◌, ◌-◌, ◌^◌, ◌++◌, ◌∷◌, [], length, take, drop, map, OnOk};
ghost use Rattle.std.specs.List.{AllByRecursion};
ghost use Rattle.bti_nodes.specs.Spelling.{IsNode, zeros};
ghost use Rattle.page_packer.specs.Layout.{seen_from, node_at_place};

use bti_nodes::{Child, encode_parts};
use key_types::{ByteList, NoMemory};
use std::alloc::Global;

/// A node that stands in the file: the byte of the branch to it, and its position in bytes from the file's start.
#[derive(Clone, Copy, Debug, PartialEq, Eq)]
pub struct Stood {
    pub byte: u8,
    pub position: u64,
}

/// The bytes so far, the children that wait for their parents, and room for those of one node.
#[derive(Drop)]
pub struct Work {
    pub out: ByteList,
    pub stood: Vec<Stood>,
    pub seen: Vec<Child>,
}

impl Work {
    pub fn new(alloc: Global) -> Work
        ensures out { result.out ≡ [] }
        ensures stood { result.stood.items ≡ [] }
    {
        Work {
            out: ByteList::new(alloc),
            stood: Vec::new(alloc),
            seen: Vec::new(alloc),
        }
    }
}

/// The children as a node at a position sees them.
pub fn see(stood: &[Stood], at: u64, seen: &mut Vec<Child>) -> Result<(), NoMemory>
    requires { AllByRecursion (λ s. s.position ≤ at) stood.now }
    ensures { OnOk result (seen.new.items ≡ map (seen_from at) stood.now) }
{
    seen.clear();
    let mut rest = stood;
    'children: while let [child, after @ ..] = rest {
        seen.push(Child {
            byte: child.byte,
            distance: at - child.position,
        })?;
        rest = after;
    }
    Ok(())
}

/// The position of the only node.
pub fn only_position(stood: &[Stood]) -> u64
    ensures { (node : Stood) → stood.now ≡ node ∷ [] → result ≡ node.position }
{
    match stood {
        [node, ..] => node.position,
        [] => 0,
    }
}

/// Appends zeros.
pub fn put_zeros(count: usize, out: &mut ByteList) -> Result<(), NoMemory>
    requires { count ≤ 4096 }
    ensures { OnOk result (out.new ≡ out.old ++ zeros count) }
{
    let page = [0u8; 4096];
    let (front, _) = page.as_slice().split_at(count);
    out.extend(front)
}

/// Appends the node whose children wait from `base` on, at a position, and takes them from the waiting.
pub fn close(payload: &[u8], base: usize, at: u64, work: &mut Work) -> Result<(), NoMemory>
    requires base { base ≤ length work.old.stood.items }
    requires before { AllByRecursion (λ s. s.position ≤ at) (drop base work.old.stood.items) }
    requires node { IsNode (record { payload = payload.now; children = map (seen_from at) (drop base work.old.stood.items) }) }
    ensures bytes { OnOk result (work.new.out ≡ work.old.out ++ node_at_place payload.now (drop base work.old.stood.items) at) }
    ensures stood { OnOk result (work.new.stood.items ≡ take base work.old.stood.items) }
{
    let (_, children) = work.stood.as_slice().split_at(base);
    see(children, at, &mut work.seen)?;
    encode_parts(payload, work.seen.as_slice(), &mut work.out)?;
    work.stood.truncate(base);
    Ok(())
}
