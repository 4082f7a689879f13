//! Checks of the entries and row indexes of one partition of forty rows in three blocks.
use super::*;
use bti_nodes::{Cause, Damage};
use data_file::DataError;
use data_walk::{Clash, Mismatch, Refusal};
use outside::{FileId, MemStore, Part};
use page_cache::PageCache;
use std::alloc::Global;
use std::test::*;
use table_files::read_schema;

/// The text of the schema.
const SCHEMA: &[u8] = b"bti-table 1\n(int; int; blob)\nend\n";

/// The trie of Partitions.db, whose root stands at 2: one path, whose number is 20.
const INDEX: [u8; 4] = [0x01, 0x14, 0x12, 0x40];

/// Rows.db: the trie of the blocks, whose root stands at 18, and at 20 the entry.
const ROWS: [u8; 48] = [
    0x02, 0x43, 0x2B, 0x02, 0x86, 0x4E, 0x50, 0x02, 0x11, 0x22, 0x06, 0x03, 0x16, 0x00, 0x12, 0x00,
    0x12, 0x80, 0x12, 0x40, 0x00, 0x06, 0x40, 0x80, 0x00, 0x00, 0x01, 0x38, 0x00, 0x00, 0x00, 0x00,
    0x00, 0x00, 0x00, 0x00, 0x00, 0x00, 0x00, 0x00, 0x00, 0x00, 0x00, 0x12, 0x00, 0x00, 0x00, 0x03,
];

/// Data.db: a partition of forty rows with values of 1,000 bytes.
fn forty_rows(alloc: Global) -> Result<Vec<u8>, Fail> {
    let mut bytes = Vec::new(alloc);
    bytes.extend_from_slice(&[0x00, 0x06, 0x40, 0x80, 0x00, 0x00, 0x01, 0x38])?;
    for n in 0..40u8 {
        bytes.extend_from_slice(&[0x01, 0x00, 0x06, 0x40, 0x80, 0x00, 0x00, n, 0x38])?;
        bytes.extend_from_slice(&[0x03, 0xE8])?;
        bytes.extend_from_slice(&[n; 1000])?;
    }
    bytes.push(0)?;
    Ok(bytes)
}

/// Rows.db where its bytes from a place on are others.
fn changed_rows(alloc: Global, at: usize, others: &[u8]) -> Result<Vec<u8>, Fail> {
    let mut rows = Vec::new(alloc);
    rows.extend_from_slice(ROWS.get(..at).unwrap_or(&[]))?;
    rows.extend_from_slice(others)?;
    let behind = rows.len();
    rows.extend_from_slice(ROWS.get(behind..).unwrap_or(&[]))?;
    Ok(rows)
}

/// Puts a part of the first generation into the store.
fn put_part(store: &mut MemStore, part: Part, bytes: Vec<u8>) -> Result<(), Fail> {
    let name = FileId {
        generation: 1,
        part,
    };
    store.put_file(name, bytes)?;
    Ok(())
}

/// What the check finds of the files with this Rows.db.
fn checked(alloc: Global, rows: Vec<u8>) -> Result<Result<(), Refusal>, Fail> {
    let mut store = MemStore::new(alloc, Vec::new(alloc));
    put_part(&mut store, Part::Schema, SCHEMA.to_vec(alloc)?)?;
    put_part(&mut store, Part::Data, forty_rows(alloc)?)?;
    put_part(&mut store, Part::Partitions, INDEX.to_vec(alloc)?)?;
    put_part(&mut store, Part::Rows, rows)?;
    let Ok(Some(schema)) = read_schema(alloc, &mut store, 1) else {
        return Ok(Err(Refusal::Unread(DataError::StoreFault)));
    };
    let mut cache = PageCache::new(alloc)?;
    Ok(check_entries(alloc, &schema, &mut cache, &mut store, 1, 2))
}

/// What it finds where the bytes of Rows.db from a place on are others.
fn found(alloc: Global, at: usize, others: &[u8]) -> Result<Result<(), Refusal>, Fail> {
    checked(alloc, changed_rows(alloc, at, others)?)
}

/// A clash at a place of Rows.db.
fn clash(position: u64, clash: Clash) -> Result<(), Refusal> {
    Err(Refusal::Clashes(Mismatch {
        part: Part::Rows,
        position,
        clash,
    }))
}

/// A number at a place of Rows.db that isn't the one that Data.db gives.
fn number(position: u64, found: i128, wanted: i128) -> Result<(), Refusal> {
    clash(position, Clash::Number { found, wanted })
}

#[test]
fn entry_and_blocks(rt: HostRuntime) -> Result<(), Fail> {
    let alloc = rt.alloc();
    assert_eq!(rt; found(alloc, 0, &[])?, Ok(()));
    assert_eq!(rt; found(alloc, 2, &[0x2C])?, number(0, 17196, 17195));
    assert_eq!(rt; found(alloc, 8, &[0x12])?, clash(0, Clash::Path));
    assert_eq!(rt; found(alloc, 26, &[0x02])?, clash(20, Clash::Key));
    assert_eq!(rt; found(alloc, 35, &[0x01])?, number(20, 1, 0));
    assert_eq!(rt; found(alloc, 47, &[0x04])?, number(20, 4, 3));
    let damage = Refusal::Unread(DataError::Damaged(Damage {
        part: Part::Rows,
        position: 20,
        cause: Cause::BadEntry,
    }));
    assert_eq!(rt; found(alloc, 43, &[0x14])?, Err(damage));
    Ok(())
}
