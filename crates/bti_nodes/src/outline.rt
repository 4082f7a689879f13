//! The choice of a node's type, and how many bytes a node has.
ghost use Rattle.std.specs.Prelude.{◌≡◌, ◌<◌, ◌≤◌, ◌^◌, ◌+◌, length, IsTrue};
ghost use Rattle.bti_nodes.specs.Grammar.{IsWidth};
ghost use Rattle.bti_nodes.specs.Spelling.{parts_of, IsNode, node_size, node_weight, greatest, last_letter, outline_by, places_for, size_as, shape_holds, holds, chosen, distant, outline_size, least_from, kind_of_number, size_by};

use crate::node::{Child, NodeParts};
use crate::table::{Kind, Shape, body_len, kind_by};

/// What the choice of a type looks at: how many bytes of payload and how many children there are, the
/// first and the last transition byte, and the greatest distance; 0 for each that isn't there.
#[derive(Clone, Copy, Debug, PartialEq, Eq)]
pub struct Outline {
    pub payload: usize,
    pub count: usize,
    pub first: u8,
    pub last: u8,
    pub greatest: u64,
}

/// The greatest distance of the children, 0 where there are none.
fn greatest(children: &[Child]) -> u64
    ensures { result ≡ greatest children.now }
{
    let mut most = 0u64;
    let mut rest = children;
    'children: while let [child, after @ ..] = rest {
        most = most.max(child.distance);
        rest = after;
    }
    most
}

/// The last transition byte, 0 where there is no child.
fn last_letter(children: &[Child]) -> u8
    ensures { result ≡ last_letter children.now }
{
    match children {
        [.., child] => child.byte,
        [] => 0,
    }
}

/// The outline of a node with this many bytes of payload and these children.
pub fn outline_of(payload: usize, children: &[Child]) -> Outline
    ensures { result ≡ outline_by payload children.now }
{
    Outline {
        payload,
        count: children.len(),
        first: match children {
            [child, ..] => child.byte,
            [] => 0,
        },
        last: last_letter(children),
        greatest: greatest(children),
    }
}

fn places_for(shape: Shape, o: &Outline) -> usize
    ensures value { result ≡ places_for shape o.now }
    ensures few { shape ≡ Shape.Dense → result ≤ 256 }
{
    match shape {
        Shape::Dense => usize::from(o.last).saturating_sub(usize::from(o.first)) + 1,
        Shape::Leaf => 0,
        _ => o.count,
    }
}

fn shape_holds(shape: Shape, o: &Outline) -> bool
    ensures { result ≡ shape_holds shape o.now }
{
    match shape {
        Shape::Leaf => o.count == 0,
        Shape::Short => o.count == 1 && o.payload == 0,
        Shape::Single => o.count == 1,
        Shape::Sparse => o.count > 0 && o.count < 256,
        Shape::Dense => o.count > 0,
    }
}

/// Whether a type of at most 40 bits can hold the node.
fn holds(kind: Kind, o: &Outline) -> bool
    requires { kind.width ≤ 40 }
    ensures { result ≡ holds kind o.now }
{
    shape_holds(kind.shape, o) && o.greatest < 1 << kind.width
}

/// How many bytes the node has as a type that can hold it.
fn size_as(kind: Kind, o: &Outline) -> usize
    requires width { IsWidth kind.shape kind.width }
    requires held { IsTrue (shape_holds kind.shape o.now) }
    requires short { o.now.payload ≤ 7 }
    ensures value { result ≡ size_as kind o.now }
    ensures few { result < 2 ^ 17 }
{
    body_len(kind, places_for(kind.shape, o)) + o.payload
}

/// The number of the type of least size of the types 1 to 14, of several the first, for a node with children.
fn least(o: &Outline) -> usize
    requires some { 0 < o.now.count }
    requires short { o.now.payload ≤ 7 }
    ensures value { result ≡ least_from 13 1 o.now }
    ensures written { result ≤ 14 }
    ensures held { IsTrue (shape_holds (kind_of_number result).shape o.now) }
{
    let mut best = 14;
    let mut size = size_as(kind_by(14), o);
    for number in (1..14).rev() {
        let kind = kind_by(number);
        if holds(kind, o) {
            let other = size_as(kind, o);
            if other <= size {
                best = number;
                size = other;
            }
        }
    }
    best
}

/// The number of the type in which the node is written.
#[tactic(auto, unfolding(crate::specs::Spelling::chosen))]
pub fn choose(o: &Outline) -> usize
    requires short { o.now.payload ≤ 7 }
    ensures value { result ≡ chosen o.now }
    ensures written { result ≤ 14 }
    ensures held { IsTrue (shape_holds (kind_of_number result).shape o.now) }
{
    if o.count == 0 { 0 } else { least(o) }
}

/// How many bytes the node has.
#[tactic(auto, unfolding(crate::specs::Spelling::outline_size))]
pub fn outline_size(o: &Outline) -> usize
    requires short { o.now.payload ≤ 7 }
    ensures value { result ≡ outline_size o.now }
    ensures few { result < 2 ^ 17 }
{
    size_as(kind_by(choose(o)), o)
}

/// How many bytes the node would have if each distance were 4,095.
pub fn outline_weight(o: &Outline) -> usize
    requires short { o.now.payload ≤ 7 }
    ensures value { result ≡ outline_size (distant o.now) }
    ensures few { result < 2 ^ 17 }
{
    let greatest = if o.count == 0 { 0 } else { 4095 };
    outline_size(&Outline { greatest, ..*o })
}
