//! Walks over data files in memory.
use super::*;
use bti_nodes::{Cause, Damage};
use data_file::DataError;
use outside::{FileId, MemStore, Part, Store};
use std::alloc::{AllocError, Global};
use std::test::{Fail as TestFail, *};
use table_files::{data_id, read_schema};

/// The data file of one partition of one row: its head, its row, whose value is `a`, and its end.
const ONE_ROW: [u8; 16] = [
    0x00, 0x06, 0x40, 0x80, 0x00, 0x00, 0x01, 0x38, 0x01, 0x00, 0x01, 0x38, 0x00, 0x01, 0x61, 0x00,
];

/// The first two partitions of the first generation.
fn both<K: Store>(
    alloc: Global,
    store: &mut K,
) -> Result<(Option<PartitionSum>, Option<PartitionSum>), Refusal> {
    let Ok(Some(schema)) = read_schema(alloc, store, 1) else {
        return Err(Refusal::Unread(DataError::StoreFault));
    };
    let file = data_id(1);
    let limit = store.size(file)?.unwrap_or(0);
    let mut walk = DataWalk::new(alloc, 0, limit);
    let first = walk.next(&schema, store, file)?;
    let second = walk.next(&schema, store, file)?;
    Ok((first, second))
}

/// Puts a part of the first generation into the store.
fn put_part(alloc: Global, store: &mut MemStore, part: Part, bytes: &[u8]) -> Result<(), TestFail> {
    let mut file = Vec::new(alloc);
    file.extend_from_slice(bytes)?;
    let name = FileId {
        generation: 1,
        part,
    };
    store.put_file(name, file)?;
    Ok(())
}

/// The same of a table of this schema and this data file.
fn walked(
    alloc: Global,
    schema: &[u8],
    data: &[u8],
) -> Result<Result<(Option<PartitionSum>, Option<PartitionSum>), Refusal>, TestFail> {
    let mut store = MemStore::new(alloc, Vec::new(alloc));
    put_part(alloc, &mut store, Part::Schema, schema)?;
    put_part(alloc, &mut store, Part::Data, data)?;
    Ok(both(alloc, &mut store))
}

/// A clash of order at a place.
fn out_of_order<T>(position: u64) -> Result<T, Refusal> {
    Err(Refusal::Clashes(Mismatch {
        part: Part::Data,
        position,
        clash: Clash::Order,
    }))
}

#[test]
fn order_of_keys(rt: HostRuntime) -> Result<(), TestFail> {
    let alloc = rt.alloc();
    let schema = b"bti-table 1\n(int; ; text)\nend\n";
    let one = PartitionSum {
        position: 0,
        blocks: 1,
        rows: 1,
    };
    assert_eq!(rt; walked(alloc, schema, &ONE_ROW)?, Ok((Some(one), None)));
    assert_eq!(rt; walked(alloc, schema, &[])?, Ok((None, None)));
    let mut data = Vec::new(alloc);
    data.extend_from_slice(&ONE_ROW)?;
    data.extend_from_slice(&ONE_ROW)?;
    assert_eq!(rt; walked(alloc, schema, data.as_slice())?, out_of_order(16));
    data.truncate(8);
    data.push(0)?;
    assert_eq!(rt; walked(alloc, schema, data.as_slice())?, out_of_order(0));
    data.truncate(0);
    data.extend_from_slice(&ONE_ROW[..15])?;
    data.extend_from_slice(&ONE_ROW[8..])?;
    assert_eq!(rt; walked(alloc, schema, data.as_slice())?, out_of_order(15));
    let cut = Refusal::Unread(DataError::Damaged(Damage {
        part: Part::Data,
        position: 15,
        cause: Cause::BadRow,
    }));
    assert_eq!(rt; walked(alloc, schema, &ONE_ROW[..15])?, Err(cut));
    Ok(())
}

/// A partition of forty rows with values of 1,000 bytes.
fn forty_rows(alloc: Global) -> Result<Vec<u8>, AllocError> {
    let mut bytes = Vec::new(alloc);
    bytes.extend_from_slice(&ONE_ROW[..8])?;
    for n in 0..40u8 {
        bytes.extend_from_slice(&[0x01, 0x00, 0x06, 0x40, 0x80, 0x00, 0x00, n, 0x38])?;
        bytes.extend_from_slice(&[0x03, 0xE8])?;
        bytes.extend_from_slice(&[n; 1000])?;
    }
    bytes.push(0)?;
    Ok(bytes)
}

#[test]
fn blocks_of_a_partition(rt: HostRuntime) -> Result<(), TestFail> {
    let alloc = rt.alloc();
    let schema = b"bti-table 1\n(int; int; blob)\nend\n";
    let data = forty_rows(alloc)?;
    let whole = PartitionSum {
        position: 0,
        blocks: 3,
        rows: 40,
    };
    assert_eq!(rt;
        walked(alloc, schema, data.as_slice())?,
        Ok((Some(whole), None))
    );
    Ok(())
}
