//! Tables whose files stand in memory, and what the first and the third step of a check say of them.
use super::*;
use bti_nodes::{Cause, Damage};
use data_file::{Counts, DataError};
use data_walk::{Clash, Mismatch, Refusal};
use outside::{FileId, MemStore, Part, Store};
use page_cache::PageCache;
use std::alloc::Global;
use std::test::{Fail as TestFail, *};
use table_files::read_schema;

/// The data file of one partition of one row: its head, its row, whose value is `a`, and its end.
const ONE_ROW: [u8; 16] = [
    0x00, 0x06, 0x40, 0x80, 0x00, 0x00, 0x01, 0x38, 0x01, 0x00, 0x01, 0x38, 0x00, 0x01, 0x61, 0x00,
];

/// The trie of its partition index, with its root at 2.
const ONE_PUT: [u8; 4] = [0x01, 0xFF, 0x12, 0x40];

/// How many partitions and rows the first generation has, where its partition index is right.
fn steps<K: Store>(alloc: Global, store: &mut K) -> Result<Counts, Refusal> {
    let Ok(Some(schema)) = read_schema(alloc, store, 1) else {
        return Err(Refusal::Unread(DataError::StoreFault));
    };
    let found = check_data(alloc, &schema, store, 1)?;
    let mut cache = PageCache::new(alloc)?;
    check_partitions(alloc, &schema, &mut cache, store, 1, 2)?;
    Ok(found.counts)
}

/// Puts a part of the first generation into the store.
fn put_part(alloc: Global, store: &mut MemStore, part: Part, bytes: &[u8]) -> Result<(), TestFail> {
    let mut file = Vec::new(alloc);
    file.extend_from_slice(bytes)?;
    let name = FileId {
        generation: 1,
        part,
    };
    store.put_file(name, file)?;
    Ok(())
}

/// The same of a table of this data file and this index.
fn checked(alloc: Global, data: &[u8], index: &[u8]) -> Result<Result<Counts, Refusal>, TestFail> {
    let mut store = MemStore::new(alloc, Vec::new(alloc));
    let schema = b"bti-table 1\n(int; ; text)\nend\n";
    put_part(alloc, &mut store, Part::Schema, schema)?;
    put_part(alloc, &mut store, Part::Data, data)?;
    put_part(alloc, &mut store, Part::Partitions, index)?;
    Ok(steps(alloc, &mut store))
}

/// What is answered of a clash in the partition index.
fn clash(position: u64, clash: Clash) -> Result<Counts, Refusal> {
    Err(Refusal::Clashes(Mismatch {
        part: Part::Partitions,
        position,
        clash,
    }))
}

#[test]
fn partitions_and_their_paths(rt: HostRuntime) -> Result<(), TestFail> {
    let alloc = rt.alloc();
    let one = Counts {
        partitions: 1,
        rows: 1,
    };
    assert_eq!(rt; checked(alloc, &ONE_ROW, &ONE_PUT)?, Ok(one));
    let other = Clash::Number {
        found: -2,
        wanted: -1,
    };
    let positive = Clash::Number {
        found: 1,
        wanted: -1,
    };
    let bad = Refusal::Unread(DataError::Damaged(Damage {
        part: Part::Partitions,
        position: 2,
        cause: Cause::BadOrder,
    }));
    for (index, want) in [
        ([0x01, 0xFE, 0x12, 0x40], clash(0, other)),
        ([0x01, 0x01, 0x12, 0x40], clash(0, positive)),
        ([0x01, 0xFF, 0x12, 0x41], clash(0, Clash::Path)),
        ([0x01, 0xFF, 0x50, 0x00], Err(bad)),
    ] {
        assert_eq!(rt; checked(alloc, &ONE_ROW, &index)?, want);
    }
    assert_eq!(rt; checked(alloc, &[], &ONE_PUT)?, clash(0, Clash::Path));
    Ok(())
}
