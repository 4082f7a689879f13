//! Packs ascending keys into a trie in memory, and finds each of them: the proved side of the comparison in bench/nodes.
//!
//! Words: `pack COUNT`, or `find COUNT` to look the keys up besides.
#![tactic(auto)]

ghost use Rattle.std.specs.Prelude.{◌≡◌, ◌↔◌, ◌<◌, ◌≤◌, ◌^◌, IsTrue, length, []};
ghost use Rattle.page_packer.specs.Tree.{IsBelow};

use bti_nodes::{PackError, node_of, unsigned_payload};
use key_types::{ByteList, KeyBytes, NoMemory};
use outside::{FileId, MemStore, Part};
use page_packer::{Packed, Packer};
use std::alloc::Global;
use std::cmp::Ordering;
use std::process::ExitCode;
use std::{env, io};

const FILE: FileId = FileId {
    generation: 1,
    part: Part::Partitions,
};

const PAGE: u64 = 4096;

/// The keys have together at most so many bytes.
const MOST: u64 = 0x4000_0000;

/// Key number i: ascending, of 6 to 20 bytes.
fn key_of(alloc: Global, i: u32) -> Result<KeyBytes, NoMemory> {
    let mut key = ByteList::new(alloc);
    key.push(0x40)?;
    key.extend(&i.wrapping_mul(20_011).to_be_bytes())?;
    for n in 0..i % 15 {
        let filler = i.wrapping_mul(31).wrapping_add(n.wrapping_mul(7));
        key.push((filler & 0xFF) as u8)?;
    }
    key.push(0x38)?;
    Ok(key)
}

/// Whether the first key comes before the second.
fn is_below(a: &KeyBytes, b: &KeyBytes) -> bool
    ensures { IsTrue result ↔ IsBelow a.now b.now }
{
    a.cmp(b) == Ordering::Less
}

/// Packs so many keys; none where they don't ascend or are too long.
fn pack(alloc: Global, count: u32, store: &mut MemStore) -> Result<Option<Packed>, PackError> {
    let mut packer = Packer::new(alloc, FILE, 0);
    let mut last = ByteList::new(alloc);
    let mut total = 0u64;
    for i in 0..count {
        let key = key_of(alloc, i)?;
        let length = key.len() as u64;
        if !is_below(&last, &key) || length > MOST - total {
            return Ok(None);
        }
        packer.add(key.as_slice(), unsigned_payload(u64::from(i)), store)?;
        total += length;
        last = key;
    }
    if total == 0 {
        return Ok(None);
    }
    Ok(Some(packer.finish(store)?))
}

/// The page that a position lies in, as far as the file has it.
fn page_of(file: &[u8], position: u64) -> &[u8] {
    let start = (position / PAGE * PAGE) as usize;
    let (_, rest) = file.split_at(start.min(file.len()));
    let (page, _) = rest.split_at((PAGE as usize).min(rest.len()));
    page
}

/// The position of the child under a byte of the node at a position.
fn child(file: &[u8], position: u64, byte: u8) -> Option<u64> {
    let node = node_of(
        page_of(file, position),
        (position % PAGE) as usize,
        position,
    )
    .ok()?;
    let child = node.find(byte)?;
    position.checked_sub(child.distance)
}

/// Whether a payload stands at the key's end.
fn is_found(file: &[u8], root: u64, key: &[u8]) -> bool {
    let mut position = root;
    for byte in key {
        match child(file, position, *byte) {
            Some(below) => position = below,
            None => return false,
        }
    }
    match node_of(
        page_of(file, position),
        (position % PAGE) as usize,
        position,
    ) {
        Ok(node) => !node.payload().is_empty(),
        Err(_) => false,
    }
}

/// How many of so many keys are found.
fn count_found(alloc: Global, file: &[u8], root: u64, count: u32) -> Result<u32, NoMemory> {
    let mut found = 0u32;
    for i in 0..count {
        if is_found(file, root, key_of(alloc, i)?.as_slice()) {
            found = found.saturating_add(1);
        }
    }
    Ok(found)
}

fn run(rt: &HostRuntime, alloc: Global) -> io::Result<bool> {
    let words: Vec<String> = env::args(rt)?.skip(1).collect(alloc)?;
    let [work, count] = words.as_slice() else {
        return Ok(false);
    };
    let Ok(count) = count.parse::<u32>() else {
        return Ok(false);
    };
    let mut store = MemStore::new(alloc, Vec::new(alloc));
    let Ok(Some(packed)) = pack(alloc, count, &mut store) else {
        return Ok(false);
    };
    println!(rt; "length {} root {}", packed.end, packed.root)?;
    if work.as_str() == "find" {
        let Some(file) = store.contents(FILE) else {
            return Ok(false);
        };
        let Ok(found) = count_found(alloc, file, packed.root, count) else {
            return Ok(false);
        };
        println!(rt; "found {found}")?;
    }
    Ok(true)
}

fn main(rt: HostRuntime) -> ExitCode {
    match run(&rt, rt.alloc()) {
        Ok(true) => ExitCode::from(0),
        _ => ExitCode::from(1),
    }
}
