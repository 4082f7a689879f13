//! The bytes of a node are written.
ghost use Rattle.std.specs.Prelude.{[], ◌≡◌, ◌<◌, ◌≤◌, ◌+◌, ◌-◌, ◌*◌, ◌/◌, ◌^◌, ◌++◌, ◌∷◌, length, map, OnOk, OnErr, take, ℕ, get_or, true};
ghost use Rattle.std.specs.List.{flat_map, range_with_len, AllByRecursion};
ghost use Rattle.byteorder.specs.Endian.{big_bytes};
ghost use Rattle.bti_nodes.specs.Grammar.{IsRowWidth, IsWidth, HasRow};
ghost use Rattle.bti_nodes.specs.Spelling.{body, outline_by, IsNear, twelves, row_of_bits, letter_of, distance_of, IsAscending, distance_under, dense_row, first_letter, IsNode, node_bytes, parts_of, bytes_in, node_size, node_weight};

use crate::node::{Child, NodeParts};
use crate::outline::{Outline, choose, outline_of, outline_size, outline_weight};
use crate::table::{Kind, Shape, kind_by};
use byteorder::{BigEndian, ByteOrder};
use key_types::{ByteList, NoMemory};

/// Appends numbers of twelve bits.
fn put_twelves(ds: &[u64], out: &mut ByteList) -> Result<(), NoMemory>
    requires { AllByRecursion (λ d. d < 4096) ds.now }
    ensures ok { OnOk result (out.new ≡ out.old ++ twelves ds.now) }
    ensures kept { take (length out.old) out.new ≡ out.old }
{
    let mut rest = ds;
    'pairs: while let [a, b, after @ ..] = rest {
        let bytes = [
            (a / 16) as u8,
            (a % 16 * 16 + b / 256) as u8,
            (b % 256) as u8,
        ];
        out.extend(&bytes)?;
        rest = after;
    }
    if let [a] = rest {
        let bytes = [(a / 16) as u8, (a % 16 * 16) as u8];
        out.extend(&bytes)?;
    }
    Ok(())
}

/// Appends a number of `count` bytes.
fn put_whole(d: u64, count: usize, out: &mut ByteList) -> Result<(), NoMemory>
    requires some { 0 < count }
    requires few { count ≤ 8 }
    requires fits { d < 256 ^ count }
    ensures ok { OnOk result (out.new ≡ out.old ++ big_bytes count d) }
    ensures err { OnErr result (out.new ≡ out.old) }
{
    let mut buffer = [0u8; 8];
    BigEndian::write_uint(&mut buffer, d, count);
    let (front, _) = buffer.split_at(count);
    out.extend(front)
}

/// Appends numbers of `count` bytes each.
fn put_wholes(ds: &[u64], count: usize, out: &mut ByteList) -> Result<(), NoMemory>
    requires some { 0 < count }
    requires few { count ≤ 8 }
    requires fit { AllByRecursion (λ d. d < 256 ^ count) ds.now }
    ensures ok { OnOk result (out.new ≡ out.old ++ flat_map (big_bytes count) ds.now) }
    ensures kept { take (length out.old) out.new ≡ out.old }
{
    let mut rest = ds;
    'numbers: while let [d, after @ ..] = rest {
        put_whole(*d, count, out)?;
        rest = after;
    }
    Ok(())
}

/// Appends the transition bytes of the children.
fn put_letters(children: &[Child], out: &mut ByteList) -> Result<(), NoMemory>
    ensures ok { OnOk result (out.new ≡ out.old ++ map letter_of children.now) }
    ensures kept { take (length out.old) out.new ≡ out.old }
{
    let mut rest = children;
    'children: while let [child, after @ ..] = rest {
        out.push(child.byte)?;
        rest = after;
    }
    Ok(())
}

/// Appends numbers of `width` bits as a row of bits.
fn put_row(ds: &[u64], width: usize, out: &mut ByteList) -> Result<(), NoMemory>
    requires width { IsRowWidth width }
    requires fit { AllByRecursion (λ d. d < 2 ^ width) ds.now }
    ensures ok { OnOk result (out.new ≡ out.old ++ row_of_bits width ds.now) }
    ensures kept { take (length out.old) out.new ≡ out.old }
{
    if width == 12 {
        put_twelves(ds, out)
    } else {
        put_wholes(ds, width / 8, out)
    }
}

/// The distance under a byte, 0 where there is no child, and the children that stand under greater bytes.
fn next_under(children: &[Child], byte: usize) -> (u64, &[Child])
    requires { IsAscending byte children.now }
    ensures distance { result.0 ≡ distance_under children.now byte }
    ensures greater { IsAscending (byte + 1) result.1.now }
    ensures same { (b : ℕ) → byte < b → distance_under result.1.now b ≡ distance_under children.now b }
{
    match children {
        [child, after @ ..] => {
            if usize::from(child.byte) == byte {
                (child.distance, after)
            } else {
                (0, children)
            }
        }
        [] => (0, children),
    }
}

/// Writes the distance under each of the bytes from `first` on, as many as there are places.
fn spread(children: &[Child], first: u8, places: usize, row: &mut [u64; 256])
    requires few { places ≤ 256 }
    requires order { IsAscending first children.now }
    ensures { take places row.new ≡ map (distance_under children.now) (range_with_len first places) }
{
    let mut rest = children;
    for i in 0..places {
        let (distance, after) = next_under(rest, usize::from(first) + i);
        row[i] = distance;
        rest = after;
    }
}

/// Writes the distances of the children.
fn line_up(children: &[Child], row: &mut [u64; 256])
    requires { length children.now ≤ 256 }
    ensures { take (length children.now) row.new ≡ map distance_of children.now }
{
    for i in 0..children.len() {
        row[i] = children[i].distance;
    }
}

/// Appends what stands before the payload of a node with one child whose distance begins in its first byte.
fn put_short(number: usize, width: usize, o: &Outline, out: &mut ByteList) -> Result<(), NoMemory>
    requires number { number ≤ 14 }
    requires width { IsWidth Shape.Short width }
    requires fits { o.now.greatest < 2 ^ width }
    ensures ok { OnOk result (out.new ≡ out.old ++ (big_bytes ((4 + width) / 8) (number * 2 ^ width + o.now.greatest) ++ o.now.first ∷ [])) }
    ensures kept { take (length out.old) out.new ≡ out.old }
{
    if width == 4 {
        put_whole(number as u64 * 16 + o.greatest, 1, out)?;
    } else {
        put_whole(number as u64 * 4096 + o.greatest, 2, out)?;
    }
    out.push(o.first)?;
    Ok(())
}

/// Appends what stands before the payload of a node with one child.
fn put_single(number: usize, width: usize, o: &Outline, out: &mut ByteList) -> Result<(), NoMemory>
    requires number { number ≤ 14 }
    requires short { o.now.payload ≤ 7 }
    requires width { IsWidth Shape.Single width }
    requires fits { o.now.greatest < 2 ^ width }
    ensures ok { OnOk result (out.new ≡ out.old ++ (16 * number + o.now.payload) ∷ o.now.first ∷ big_bytes (width / 8) o.now.greatest) }
    ensures kept { take (length out.old) out.new ≡ out.old }
{
    out.extend(&[(16 * number + o.payload) as u8, o.first])?;
    if width == 8 {
        put_whole(o.greatest, 1, out)?;
    } else {
        put_whole(o.greatest, 2, out)?;
    }
    Ok(())
}

/// Appends what stands before the payload of a sparse node.
fn put_sparse(
    number: usize,
    width: usize,
    payload: usize,
    children: &[Child],
    out: &mut ByteList,
) -> Result<(), NoMemory>
    requires number { number ≤ 14 }
    requires short { payload ≤ 7 }
    requires few { length children.now < 256 }
    requires width { IsRowWidth width }
    requires fits { AllByRecursion (λ d. d < 2 ^ width) (map distance_of children.now) }
    ensures ok { OnOk result (out.new ≡ out.old ++ (16 * number + payload) ∷ length children.now ∷ (map letter_of children.now ++ row_of_bits width (map distance_of children.now))) }
    ensures kept { take (length out.old) out.new ≡ out.old }
{
    out.extend(&[(16 * number + payload) as u8, children.len() as u8])?;
    put_letters(children, out)?;
    let mut row = [0u64; 256];
    line_up(children, &mut row);
    let (distances, _) = row.as_slice().split_at(children.len());
    put_row(distances, width, out)
}

/// Appends what stands before the payload of a dense node.
fn put_dense(
    number: usize,
    width: usize,
    o: &Outline,
    children: &[Child],
    out: &mut ByteList,
) -> Result<(), NoMemory>
    requires number { number ≤ 14 }
    requires short { o.now.payload ≤ 7 }
    requires order { IsAscending o.now.first children.now }
    requires last { o.now.first ≤ o.now.last }
    requires width { IsRowWidth width }
    requires fits { AllByRecursion (λ d. d < 2 ^ width) (map (distance_under children.now) (range_with_len o.now.first (o.now.last - o.now.first + 1))) }
    ensures ok { OnOk result (out.new ≡ out.old ++ (16 * number + o.now.payload) ∷ o.now.first ∷ (o.now.last - o.now.first) ∷ row_of_bits width (map (distance_under children.now) (range_with_len o.now.first (o.now.last - o.now.first + 1)))) }
    ensures kept { take (length out.old) out.new ≡ out.old }
{
    out.extend(&[(16 * number + o.payload) as u8, o.first, o.last - o.first])?;
    let places = usize::from(o.last - o.first) + 1;
    let mut row = [0u64; 256];
    spread(children, o.first, places, &mut row);
    let (distances, _) = row.as_slice().split_at(places);
    put_row(distances, width, out)
}

/// Appends what stands before the payload.
fn put_body(
    number: usize,
    kind: Kind,
    o: &Outline,
    children: &[Child],
    out: &mut ByteList,
) -> Result<(), NoMemory>
    requires number { number ≤ 14 }
    requires short { o.now.payload ≤ 7 }
    requires outline { o.now ≡ outline_by o.now.payload children.now }
    requires order { IsAscending 0 children.now }
    requires width { IsWidth kind.shape kind.width }
    requires row { HasRow kind.shape kind.width }
    requires few { kind.shape ≡ Shape.Sparse → length children.now < 256 }
    requires fits { o.now.greatest < 2 ^ kind.width }
    ensures ok { OnOk result (out.new ≡ out.old ++ body number kind.shape kind.width o.now.payload children.now) }
    ensures kept { take (length out.old) out.new ≡ out.old }
{
    match kind.shape {
        Shape::Leaf => out.push((16 * number + o.payload) as u8),
        Shape::Short => put_short(number, kind.width, o, out),
        Shape::Single => put_single(number, kind.width, o, out),
        Shape::Sparse => put_sparse(number, kind.width, o.payload, children, out),
        Shape::Dense => put_dense(number, kind.width, o, children, out),
    }
}

/// Appends the bytes of a node in the chosen type.
#[tactic(auto, unfolding(crate::specs::Spelling::node_bytes))]
fn put_node(payload: &[u8], children: &[Child], out: &mut ByteList) -> Result<(), NoMemory>
    requires { IsNode (record { payload = payload.now; children = children.now }) }
    ensures ok { OnOk result (out.new ≡ out.old ++ node_bytes (record { payload = payload.now; children = children.now })) }
    ensures kept { take (length out.old) out.new ≡ out.old }
{
    let o = outline_of(payload.len(), children);
    let number = choose(&o);
    put_body(number, kind_by(number), &o, children, out)?;
    out.extend(payload)
}

/// Appends the bytes of a node with this payload and these children.
pub fn encode_parts(payload: &[u8], children: &[Child], out: &mut ByteList) -> Result<(), NoMemory>
    requires { IsNode (record { payload = payload.now; children = children.now }) }
    ensures ok { OnOk result (out.new ≡ out.old ++ node_bytes (record { payload = payload.now; children = children.now })) }
    ensures err { OnErr result (out.new ≡ out.old) }
{
    let len = out.len();
    match put_node(payload, children, out) {
        Ok(()) => Ok(()),
        Err(e) => {
            out.truncate(len);
            Err(e)
        }
    }
}

/// Appends the bytes of a node. Without memory nothing is appended.
pub fn encode_node(parts: &NodeParts, out: &mut ByteList) -> Result<(), NoMemory>
    requires count { parts.now.payload.count ≤ 7 }
    requires node { IsNode (parts_of parts.now) }
    ensures ok { OnOk result (out.new ≡ out.old ++ node_bytes (parts_of parts.now)) }
    ensures err { OnErr result (out.new ≡ out.old) }
{
    encode_parts(parts.payload.as_slice(), parts.children.as_slice(), out)
}

/// How many bytes a node has.
pub fn node_size(parts: &NodeParts) -> usize
    requires { parts.now.payload.count ≤ 7 }
    ensures { result ≡ node_size (parts_of parts.now) }
{
    outline_size(&outline_of(usize::from(parts.payload.count), parts.children.as_slice()))
}

/// How many bytes a node would have if each distance were 4,095.
pub fn node_weight(parts: &NodeParts) -> usize
    requires { parts.now.payload.count ≤ 7 }
    ensures { result ≡ node_weight (parts_of parts.now) }
{
    outline_weight(&outline_of(usize::from(parts.payload.count), parts.children.as_slice()))
}
