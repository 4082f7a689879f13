ghost use Rattle.std.specs.Prelude.{◌≤◌, ◌<◌, ◌^◌, ◌-◌, ◌≤ℤ◌, ◌<ℤ◌, negsuc, pos, length};
ghost use Rattle.partition_index.specs.Entries.{IsApartBelow};

use super::*;
use bti_nodes::PackError;
use outside::{FileId, MemStore, Part};
use std::alloc::Global;

const FILE: FileId = FileId {
    generation: 1,
    part: Part::Partitions,
};

/// Writes the index of no partitions.
fn write_none(alloc: Global, store: &mut MemStore) -> Result<(), PackError> {
    PartitionWriter::new(alloc, FILE).finish(store)
}

/// Writes the index of one partition.
fn write_one(
    alloc: Global,
    string: &[u8],
    number: i64,
    store: &mut MemStore,
) -> Result<(), PackError>
    requires some { 0 < length string.now }
    requires most { length string.now ≤ 1024 }
    requires low { negsuc (2 ^ 55 - 1) ≤ℤ number }
    requires high { number <ℤ pos (2 ^ 55) }
{
    let mut writer = PartitionWriter::new(alloc, FILE);
    writer.add(string, number, store)?;
    writer.finish(store)
}

/// Writes the index of two partitions, of which the first has one block.
fn write_two(
    alloc: Global,
    first: &[u8],
    second: &[u8],
    store: &mut MemStore,
) -> Result<(), PackError>
    requires apart { IsApartBelow first.now second.now }
    requires some_first { 0 < length first.now }
    requires most_first { length first.now ≤ 1024 }
    requires some_second { 0 < length second.now }
    requires most_second { length second.now ≤ 1024 }
{
    let mut writer = PartitionWriter::new(alloc, FILE);
    writer.add(first, -1, store)?;
    writer.add(second, 40, store)?;
    writer.finish(store)
}

/// The strings of the ints 1 and 2 as the only component of a partition's key.
const ONE: [u8; 6] = [0x40, 0x80, 0, 0, 1, 0x38];

const TWO: [u8; 6] = [0x40, 0x80, 0, 0, 2, 0x38];

/// What a row's index has as its partition's number, and the file.
const ROWS: [(i64, [u8; 44]); 2] = [
    // `one-put`
    (
        -1,
        [
            1, 0xFF, 0x12, 0x40, 0, 6, 0x40, 0x80, 0, 0, 1, 0x38, 0, 6, 0x40, 0x80, 0, 0, 1, 0x38,
            0, 0, 0, 0, 0, 0, 0, 4, 0, 0, 0, 0, 0, 0, 0, 1, 0, 0, 0, 0, 0, 0, 0, 2,
        ],
    ),
    // `forty-rows`
    (
        20,
        [
            1, 0x14, 0x12, 0x40, 0, 6, 0x40, 0x80, 0, 0, 1, 0x38, 0, 6, 0x40, 0x80, 0, 0, 1, 0x38,
            0, 0, 0, 0, 0, 0, 0, 4, 0, 0, 0, 0, 0, 0, 0, 1, 0, 0, 0, 0, 0, 0, 0, 2,
        ],
    ),
];

#[test]
fn rows_are_written(rt: HostRuntime) {
    let alloc = rt.alloc();
    for (number, bytes) in ROWS {
        let mut store = MemStore::new(alloc, Vec::new(alloc));
        assert_eq!(rt; write_one(alloc, &ONE, number, &mut store), Ok(()));
        assert_eq!(rt; store.contents(FILE), Some(bytes.as_slice()));
    }
}

/// The file of both, whose shortest prefixes have five bytes.
const BOTH: [u8; 58] = [
    1, 0xFF, 1, 40, 0x50, 2, 1, 2, 4, 2, 0x16, 0, 0x12, 0, 0x12, 0x80, 0x12, 0x40, 0, 6, 0x40,
    0x80, 0, 0, 1, 0x38, 0, 6, 0x40, 0x80, 0, 0, 2, 0x38, 0, 0, 0, 0, 0, 0, 0, 18, 0, 0, 0, 0, 0,
    0, 0, 2, 0, 0, 0, 0, 0, 0, 0, 16,
];

#[test]
fn neighbours_have_unique_prefixes(rt: HostRuntime) {
    let alloc = rt.alloc();
    let mut store = MemStore::new(alloc, Vec::new(alloc));
    assert_eq!(rt; write_two(alloc, &ONE, &TWO, &mut store), Ok(()));
    assert_eq!(rt; store.contents(FILE), Some(BOTH.as_slice()));
}

/// Row `empty-load`.
#[test]
fn no_partitions_have_an_empty_index(rt: HostRuntime) {
    let alloc = rt.alloc();
    let mut store = MemStore::new(alloc, Vec::new(alloc));
    assert_eq!(rt; write_none(alloc, &mut store), Ok(()));
    assert_eq!(rt; store.contents(FILE), Some([0u8; 28].as_slice()));
}
