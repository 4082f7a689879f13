ghost use Rattle.std.specs.Prelude.{◌≡◌, ◌↔◌, ◌<◌, ◌≤◌, IsTrue};
ghost use Rattle.page_packer.specs.Tree.{IsBelow};

use super::*;
use bti_nodes::{PackError, Payload};
use key_types::{ByteList, KeyBytes, NoMemory};
use outside::{FileId, MemStore, Part};
use std::alloc::Global;
use std::cmp::Ordering;

const FILE: FileId = FileId {
    generation: 1,
    part: Part::Partitions,
};

/// The keys have together at most so many bytes.
const MOST: u64 = 0x4000_0000;

/// Ascending keys: those of a worked row; or keys of two bytes, 00 00, 00 01 and so on to 05 00; or eight keys at each of
/// 1,024 levels, whose bytes but the last are 7F.
#[derive(Clone, Copy)]
enum Keys {
    OnePut,
    FortyRows,
    ThreeBlocks,
    Pairs,
    Deep,
}

const SIBLINGS: u32 = 8;

fn count_of(keys: Keys) -> u32 {
    match keys {
        Keys::OnePut => 1,
        Keys::FortyRows => 2,
        Keys::ThreeBlocks => 2,
        Keys::Pairs => 5 * 256 + 1,
        Keys::Deep => SIBLINGS * 1024,
    }
}

fn key_bytes(alloc: Global, bytes: &[u8]) -> Result<KeyBytes, NoMemory> {
    let mut key = ByteList::new(alloc);
    key.extend(bytes)?;
    Ok(key)
}

/// The key of that number below the last level.
fn deep_key(alloc: Global, i: u32) -> Result<KeyBytes, NoMemory> {
    let mut key = ByteList::new(alloc);
    for _ in 0..i / SIBLINGS {
        key.push(0x7F)?;
    }
    key.push(0x20 + (i % SIBLINGS) as u8)?;
    Ok(key)
}

fn key_of(alloc: Global, keys: Keys, i: u32) -> Result<KeyBytes, NoMemory> {
    match keys {
        Keys::OnePut => key_bytes(alloc, &[0x40]),
        Keys::FortyRows if i == 0 => key_bytes(alloc, &[0x40, 0x80, 0, 0, 0x11]),
        Keys::FortyRows => key_bytes(alloc, &[0x40, 0x80, 0, 0, 0x22]),
        Keys::ThreeBlocks if i == 0 => key_bytes(alloc, &[0x40, 0x62]),
        Keys::ThreeBlocks => key_bytes(alloc, &[0x40, 0x62, 0x63]),
        Keys::Pairs => key_bytes(alloc, &[(i / 256 % 256) as u8, (i % 256) as u8]),
        Keys::Deep => deep_key(alloc, i),
    }
}

fn payload_of(keys: Keys, i: u32) -> Payload
    ensures some { 0 < result.count }
    ensures few { result.count ≤ 7 }
{
    let (count, first, second) = match keys {
        Keys::OnePut => (1, 0xFF, 0),
        Keys::FortyRows if i == 0 => (2, 0x43, 0x2B),
        Keys::FortyRows => (2, 0x86, 0x4E),
        Keys::ThreeBlocks if i == 0 => (2, 0x40, 0x11),
        Keys::ThreeBlocks => (2, 0x80, 0x1A),
        Keys::Pairs | Keys::Deep => (1, 1, 0),
    };
    Payload {
        count,
        bytes: [first, second, 0, 0, 0, 0, 0],
    }
}

/// Whether the first key comes before the second.
fn is_below(a: &KeyBytes, b: &KeyBytes) -> bool
    ensures { IsTrue result ↔ IsBelow a.now b.now }
{
    a.cmp(b) == Ordering::Less
}

fn file_len(store: &MemStore) -> usize {
    match store.contents(FILE) {
        Some(bytes) => bytes.len(),
        None => 0,
    }
}

/// Packs the keys, and notes how long the file is after each of them; none where they don't ascend or are too long.
fn pack(
    alloc: Global,
    keys: Keys,
    store: &mut MemStore,
    lengths: &mut Vec<usize>,
) -> Result<Option<Packed>, PackError> {
    let mut packer = Packer::new(alloc, FILE, 0);
    let mut last = ByteList::new(alloc);
    let mut total = 0u64;
    for i in 0..count_of(keys) {
        let key = key_of(alloc, keys, i)?;
        let length = key.len() as u64;
        if !is_below(&last, &key) || length > MOST - total {
            return Ok(None);
        }
        packer.add(key.as_slice(), payload_of(keys, i), store)?;
        note(lengths, file_len(store))?;
        total += length;
        last = key;
    }
    if total == 0 {
        return Ok(None);
    }
    Ok(Some(packer.finish(store)?))
}

fn note(lengths: &mut Vec<usize>, length: usize) -> Result<(), NoMemory> {
    lengths.push(length)?;
    Ok(())
}

/// What a row's packer answers and appends: its keys, the position of the root, and the bytes.
const ROWS: [(Keys, u64, &[u8]); 3] = [
    (Keys::OnePut, 2, &[0x01, 0xFF, 0x12, 0x40]),
    (
        Keys::FortyRows,
        18,
        &[
            0x02, 0x43, 0x2B, 0x02, 0x86, 0x4E, 0x50, 0x02, 0x11, 0x22, 0x06, 0x03, 0x16, 0x00,
            0x12, 0x00, 0x12, 0x80, 0x12, 0x40,
        ],
    ),
    (
        Keys::ThreeBlocks,
        10,
        &[
            0x02, 0x80, 0x1A, 0x22, 0x63, 0x03, 0x40, 0x11, 0x15, 0x62, 0x12, 0x40,
        ],
    ),
];

#[test]
fn rows_are_packed(rt: HostRuntime) {
    let alloc = rt.alloc();
    for (keys, root, bytes) in ROWS {
        let mut store = MemStore::new(alloc, Vec::new(alloc));
        let mut lengths = Vec::new(alloc);
        let packed = pack(alloc, keys, &mut store, &mut lengths);
        let end = bytes.len() as u64;
        assert_eq!(rt; packed, Ok(Some(Packed { root, end })));
        assert_eq!(rt; store.contents(FILE), Some(bytes));
    }
}

/// Row `streaming-packer/1`: how long the file is after keys of two bytes.
#[test]
fn subtrees_are_appended_as_they_stand(rt: HostRuntime) {
    let alloc = rt.alloc();
    let mut store = MemStore::new(alloc, Vec::new(alloc));
    let mut lengths = Vec::new(alloc);
    let packed = pack(alloc, Keys::Pairs, &mut store, &mut lengths);
    assert!(rt; matches!(&packed, Ok(Some(_))));
    for (i, length) in lengths.iter().enumerate() {
        let wanted = if i <= 0x0489 {
            0
        } else if i < 0x0500 {
            3596
        } else {
            4995
        };
        assert_eq!(rt; *length, wanted, "{i}");
    }
    let zeros = match store.contents(FILE) {
        Some(bytes) => bytes
            .iter()
            .skip(3596)
            .take_while(|byte| **byte == 0)
            .count(),
        None => 0,
    };
    assert_eq!(rt; zeros, 500);
}

#[test]
fn deep_tries_end(rt: HostRuntime) {
    let alloc = rt.alloc();
    let mut store = MemStore::new(alloc, Vec::new(alloc));
    let mut lengths = Vec::new(alloc);
    let packed = pack(alloc, Keys::Deep, &mut store, &mut lengths);
    let end = file_len(&store) as u64;
    assert!(rt; matches!(&packed, Ok(Some(p)) if p.end == end && p.root < end));
}
