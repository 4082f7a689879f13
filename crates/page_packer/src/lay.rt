//! Where nodes and subtrees go in pages.
ghost use Rattle.std.specs.Prelude.{◌≡◌, ◌≤◌, ◌<◌, ◌+◌, ◌*◌, ◌^◌, ◌++◌, ◌∷◌, [], ℕ, length, take, drop, map, OnOk};
ghost use Rattle.std.specs.List.{AllByRecursion};
ghost use Rattle.bti_nodes.specs.Spelling.{IsNode};
ghost use Rattle.page_packer.specs.Tree.{weight};
ghost use Rattle.page_packer.specs.Layout.{gap, lay, lay_under, seen_from, node_at_place};
ghost use Rattle.page_packer.specs.Sound.{Sound, IsFull};
ghost use Rattle.page_packer.specs.Boxes.{branches_of, node_in_box, count_in, IsWeighed, IsSoundLink};
ghost use Rattle.page_packer.specs.Work.{Adds, AddsOne, closed_alone};

use crate::boxes::{Branch, Link, payload_bytes};
use crate::pack::pack;
use crate::work::{Stood, Work, close, put_zeros, see};
use bti_nodes::{outline_of, outline_size};
use key_types::NoMemory;

/// How many zeros stand before bytes that would cross into the next page.
fn gap(position: u64, size: usize) -> usize
    requires { size ≤ 4096 }
    ensures value { result ≡ gap position size }
    ensures few { result ≤ 4096 }
{
    let filled = (position % 4096) as usize;
    if filled + size > 4096 {
        4096 - filled
    } else {
        0
    }
}

/// Appends a light subtree, which goes into the next page where it would cross into it.
fn lay_light(branch: &Branch, start: u64, work: &mut Work) -> Result<(), NoMemory>
    requires sound { Sound (node_in_box branch.now) }
    requires full { IsFull (node_in_box branch.now) }
    requires light { branch.now.weight ≤ 4096 }
    requires weight { branch.now.weight ≡ weight (node_in_box branch.now) }
    requires room { start + length work.old.out < 2 ^ 61 }
    ensures { OnOk result (AddsOne work.old work.new branch.now.byte (lay (node_in_box branch.now) (start + length work.old.out))) }
{
    let filled = start + work.out.len() as u64;
    put_zeros(gap(filled, usize::from(branch.weight)), &mut work.out)?;
    let base = work.stood.len();
    pack(&branch.children, start, work)?;
    let position = start + work.out.len() as u64;
    close(payload_bytes(&branch.payload), base, position, work)?;
    work.stood.push(Stood {
        byte: branch.byte,
        position,
    })?;
    Ok(())
}

/// Appends the node whose children wait from `base` on behind all bytes, or into the next page where it would cross
/// into it.
pub fn close_in_page(
    byte: u8,
    payload: &[u8],
    base: usize,
    at: u64,
    work: &mut Work,
) -> Result<(), NoMemory>
    requires base { base ≤ length work.old.stood.items }
    requires place { at < 2 ^ 61 }
    requires short { length payload.now ≤ 7 }
    requires before { AllByRecursion (λ s. s.position ≤ at) (drop base work.old.stood.items) }
    requires fits { length (node_at_place payload.now (drop base work.old.stood.items) at) ≤ 4096 }
    requires node { (room : ℕ) → room ≤ 4096 → IsNode (record { payload = payload.now; children = map (seen_from (at + room)) (drop base work.old.stood.items) }) }
    ensures bytes { OnOk result (work.new.out ≡ work.old.out ++ (closed_alone payload.now (drop base work.old.stood.items) at).bytes) }
    ensures stood { OnOk result (work.new.stood.items ≡ take base work.old.stood.items ++ record { byte = byte; position = (closed_alone payload.now (drop base work.old.stood.items) at).root } ∷ []) }
{
    let (_, children) = work.stood.as_slice().split_at(base);
    see(children, at, &mut work.seen)?;
    let size = outline_size(&outline_of(payload.len(), work.seen.as_slice()));
    let room = gap(at, size);
    put_zeros(room, &mut work.out)?;
    let position = at + room as u64;
    close(payload, base, position, work)?;
    work.stood.push(Stood { byte, position })?;
    Ok(())
}

/// Appends the layout of branches by ascending byte: each light subtree in one page, and each other node in one page
/// behind its children.
pub fn lay(link: &Link, start: u64, work: &mut Work) -> Result<(), NoMemory>
    requires sound { IsSoundLink link.now }
    requires weighed { IsWeighed link.now }
    requires few { count_in link.now ≤ 2 ^ 31 }
    requires room { start + length work.old.out + 30 * count_in link.now < 2 ^ 61 }
    ensures ok { OnOk result (Adds work.old work.new (lay_under (branches_of link.now) (start + length work.old.out))) }
    ensures short { OnOk result (length work.new.out ≤ length work.old.out + 30 * count_in link.now) }
{
    match link {
        Link::End => Ok(()),
        Link::Last(branch) => {
            let branch: &Branch = branch;
            lay(&branch.before, start, work)?;
            if branch.weight <= 4096 {
                return lay_light(branch, start, work);
            }
            let base = work.stood.len();
            lay(&branch.children, start, work)?;
            let at = start + work.out.len() as u64;
            close_in_page(branch.byte, payload_bytes(&branch.payload), base, at, work)
        }
    }
}
