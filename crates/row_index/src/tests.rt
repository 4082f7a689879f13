ghost use Rattle.std.specs.Prelude.{◌≡◌, ◌≤◌, ◌<◌, ◌+◌, ◌^◌, length};
ghost use Rattle.std.specs.declared.cmp.Ordering.TheVariants.{Less};
ghost use Rattle.key_types.specs.Table.{string_cmp};

use super::*;
use bti_nodes::PackError;
use outside::{FileId, MemStore, Part};
use std::alloc::Global;

const FILE: FileId = FileId {
    generation: 1,
    part: Part::Rows,
};

/// The string of the int 1 as the only component of a partition's key.
const ONE: [u8; 6] = [0x40, 0x80, 0, 0, 1, 0x38];

/// Where a block begins: the string of the row before it, that of its first row, and its offset.
#[derive(Clone, Copy)]
struct Edge<'a> {
    before: &'a [u8],
    first: &'a [u8],
    offset: u64,
}

/// Writes the index of one partition of three blocks, and answers where its entry stands.
fn write_three(
    alloc: Global,
    second: Edge,
    third: Edge,
    store: &mut MemStore,
) -> Result<u64, PackError>
    requires above_second { string_cmp second.before.now second.first.now ≡ Less }
    requires above_third { string_cmp third.before.now third.first.now ≡ Less }
    requires behind { string_cmp third.before.now second.first.now ≡ Less → ⊥ }
    requires some_second { 0 < second.offset }
    requires few_second { second.offset < 2 ^ 56 }
    requires some_third { 0 < third.offset }
    requires few_third { third.offset < 2 ^ 56 }
    requires room { length second.first.now + length third.first.now ≤ 2 ^ 30 }
{
    let mut writer = RowWriter::new(alloc, FILE);
    writer.add(second.first, second.before, second.offset, store)?;
    writer.add(third.first, third.before, third.offset, store)?;
    let at = writer.finish_partition(&ONE, 0, store)?;
    writer.finish(store)?;
    Ok(at)
}

/// Writes the index of a table of which no partition has two blocks.
fn write_none(alloc: Global, store: &mut MemStore) -> Result<(), PackError> {
    RowWriter::new(alloc, FILE).finish(store)
}

/// The file of row `forty-rows`.
const FORTY_ROWS: [u8; 48] = [
    2, 0x43, 0x2B, 2, 0x86, 0x4E, 0x50, 2, 0x11, 0x22, 6, 3, 0x16, 0, 0x12, 0, 0x12, 0x80, 0x12,
    0x40, 0, 6, 0x40, 0x80, 0, 0, 1, 0x38, 0, 0, 0, 0, 0, 0, 0, 0, 0, 0, 0, 0, 0, 0, 0, 18, 0, 0,
    0, 3,
];

#[test]
fn forty_rows_have_three_blocks(rt: HostRuntime) {
    let alloc = rt.alloc();
    let mut store = MemStore::new(alloc, Vec::new(alloc));
    let second = Edge {
        before: &[0x40, 0x80, 0, 0, 16, 0x38],
        first: &[0x40, 0x80, 0, 0, 17, 0x38],
        offset: 17_195,
    };
    let third = Edge {
        before: &[0x40, 0x80, 0, 0, 33, 0x38],
        first: &[0x40, 0x80, 0, 0, 34, 0x38],
        offset: 34_382,
    };
    assert_eq!(rt; write_three(alloc, second, third, &mut store), Ok(20));
    assert_eq!(rt; store.contents(FILE), Some(FORTY_ROWS.as_slice()));
}

/// The file of row `three-blocks`.
const THREE_BLOCKS: [u8; 40] = [
    2, 0x80, 0x1A, 0x22, 0x63, 3, 0x40, 0x11, 0x15, 0x62, 0x12, 0x40, 0, 6, 0x40, 0x80, 0, 0, 1,
    0x38, 0, 0, 0, 0, 0, 0, 0, 0, 0, 0, 0, 0, 0, 0, 0, 10, 0, 0, 0, 3,
];

#[test]
fn an_inner_node_has_a_payload(rt: HostRuntime) {
    let alloc = rt.alloc();
    let mut store = MemStore::new(alloc, Vec::new(alloc));
    let second = Edge {
        before: &[0x40, 0x61, 0, 0x38],
        first: &[0x40, 0x62, 0, 0x38],
        offset: 16_401,
    };
    let third = Edge {
        before: &[0x40, 0x62, 0, 0x38],
        first: &[0x40, 0x62, 0x63, 0, 0x38],
        offset: 32_794,
    };
    assert_eq!(rt; write_three(alloc, second, third, &mut store), Ok(12));
    assert_eq!(rt; store.contents(FILE), Some(THREE_BLOCKS.as_slice()));
}

/// Rows `empty-load` and `one-put`.
#[test]
fn tables_of_short_partitions_have_an_empty_index(rt: HostRuntime) {
    let alloc = rt.alloc();
    let mut store = MemStore::new(alloc, Vec::new(alloc));
    assert_eq!(rt; write_none(alloc, &mut store), Ok(()));
    assert_eq!(rt; store.contents(FILE), Some([].as_slice()));
}
