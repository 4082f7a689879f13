//! The index files of worked rows.
use super::*;
use bti_nodes::{Cause, Damage};
use data_file::DataError;
use key_types::{ColType, Schema, TypeList, ValueType};
use outside::{FileId, MemStore, Part};
use page_cache::PageCache;
use std::alloc::{AllocError, Global};
use std::test::{Fail as TestFail, *};

/// The partition index of one partition of one block.
const ONE_PUT: [u8; 44] = [
    0x01, 0xFF, 0x12, 0x40, 0x00, 0x06, 0x40, 0x80, 0x00, 0x00, 0x01, 0x38, 0x00, 0x06, 0x40, 0x80,
    0x00, 0x00, 0x01, 0x38, 0x00, 0x00, 0x00, 0x00, 0x00, 0x00, 0x00, 0x04, 0x00, 0x00, 0x00, 0x00,
    0x00, 0x00, 0x00, 0x01, 0x00, 0x00, 0x00, 0x00, 0x00, 0x00, 0x00, 0x02,
];

/// The entry, at 20, of the partition of forty rows in the row index.
const FORTY_ROWS: [u8; 28] = [
    0x00, 0x06, 0x40, 0x80, 0x00, 0x00, 0x01, 0x38, 0x00, 0x00, 0x00, 0x00, 0x00, 0x00, 0x00, 0x00,
    0x00, 0x00, 0x00, 0x00, 0x00, 0x00, 0x00, 0x12, 0x00, 0x00, 0x00, 0x03,
];

/// The string of the partition 1.
const PARTITION: [u8; 6] = [0x40, 0x80, 0x00, 0x00, 0x01, 0x38];

fn int_schema(alloc: Global) -> Result<Schema, AllocError> {
    let int = Box::new(alloc, ColType::Int)?;
    let end = Box::new(alloc, TypeList::End)?;
    Ok(Schema {
        partition: TypeList::More(int, end),
        clustering: TypeList::End,
        value: ValueType::Text,
        static_value: None,
    })
}

/// The numbers of the footer, where the bytes are a partition index.
fn numbers_of(schema: &Schema, bytes: &[u8]) -> Option<FooterNumbers> {
    if bytes.len() < 28 {
        return None;
    }
    footer_in(schema, bytes, 0).map(|footer| footer.numbers)
}

#[test]
fn footers(rt: HostRuntime) -> Result<(), TestFail> {
    let schema = int_schema(rt.alloc())?;
    let numbers = FooterNumbers {
        strings: 4,
        partitions: 1,
        root: 2,
    };
    assert_eq!(rt; numbers_of(&schema, &ONE_PUT), Some(numbers));
    assert_eq!(rt; numbers_of(&schema, &ONE_PUT[..43]), None);
    let empty = FooterNumbers {
        strings: 0,
        partitions: 0,
        root: 0,
    };
    assert_eq!(rt; numbers_of(&schema, &[0; 28]), Some(empty));
    assert_eq!(rt; numbers_of(&schema, &[0; 29]), None);
    Ok(())
}

#[test]
fn entries(rt: HostRuntime) -> Result<(), TestFail> {
    let schema = int_schema(rt.alloc())?;
    let numbers = EntryNumbers {
        position: 0,
        root: 18,
        blocks: 3,
    };
    let found = entry_in(&schema, &FORTY_ROWS, 20).map(|entry| entry.numbers);
    assert_eq!(rt; found, Some(numbers));
    let found = entry_in(&schema, &FORTY_ROWS, 20).map(|entry| entry.partition);
    assert_eq!(rt; found, Some(&PARTITION[..]));
    let found = entry_in(&schema, &FORTY_ROWS, 18).map(|entry| entry.numbers);
    assert_eq!(rt; found, None);
    let found = entry_in(&schema, &FORTY_ROWS[..27], 20).map(|entry| entry.numbers);
    assert_eq!(rt; found, None);
    Ok(())
}

/// A file of the first generation.
fn file_of(part: Part) -> FileId {
    FileId {
        generation: 1,
        part,
    }
}

/// Damage in a file.
fn damaged(part: Part, position: u64, cause: Cause) -> DataError {
    DataError::Damaged(Damage {
        part,
        position,
        cause,
    })
}

#[test]
fn reads(rt: HostRuntime) -> Result<(), TestFail> {
    let alloc = rt.alloc();
    let schema = int_schema(alloc)?;
    let mut store = MemStore::new(alloc, Vec::new(alloc));
    let partitions = file_of(Part::Partitions);
    let rows = file_of(Part::Rows);
    let mut bytes = Vec::new(alloc);
    bytes.extend_from_slice(&ONE_PUT)?;
    assert_eq!(rt; store.put_file(partitions, bytes), Ok(()));
    let mut cache = PageCache::new(alloc)?;
    let footer = read_footer(alloc, &schema, &mut cache, &mut store, partitions);
    let numbers = FooterNumbers {
        strings: 4,
        partitions: 1,
        root: 2,
    };
    assert_eq!(rt; footer, Ok(numbers));
    let footer = read_footer(alloc, &schema, &mut cache, &mut store, rows);
    assert_eq!(rt; footer, Err(damaged(Part::Rows, 0, Cause::BadFooter)));
    let entry = read_entry(alloc, &schema, &mut cache, &mut store, rows, 20);
    assert_eq!(rt; entry, Err(damaged(Part::Rows, 20, Cause::BadEntry)));
    assert_eq!(rt; partition_place(-1), PartitionPlace::Head(0));
    assert_eq!(rt; partition_place(20), PartitionPlace::Entry(20));
    Ok(())
}
