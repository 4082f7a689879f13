//! Scans over tables whose files stand in memory.
ghost use Rattle.std.specs.Prelude.{IsSome};
ghost use Rattle.table_reader.specs.Opened.{StandsIn};

use super::*;
use crate::tests::{ONE_PUT, put};
use key_types::{ByteList, NoMemory};
use outside::{MemStore, Part, Store};
use std::alloc::Global;
use std::test::{Fail as TestFail, *};

/// The file of the schema of a table with one component in a partition and one within it.
const ROWS_SCHEMA: &[u8] = b"bti-table 1\n(int; int; text)\nend\n";

/// Two partitions: (1) with the rows (1), of value `a`, and (2), `b`, and (2) with the row (1), `c`.
const TWO_PARTITIONS: [u8; 54] = [
    0x00, 0x06, 0x40, 0x80, 0x00, 0x00, 0x01, 0x38, 0x01, 0x00, 0x06, 0x40, 0x80, 0x00, 0x00, 0x01,
    0x38, 0x00, 0x01, 0x61, 0x01, 0x00, 0x06, 0x40, 0x80, 0x00, 0x00, 0x02, 0x38, 0x00, 0x01, 0x62,
    0x00, 0x00, 0x06, 0x40, 0x80, 0x00, 0x00, 0x02, 0x38, 0x01, 0x00, 0x06, 0x40, 0x80, 0x00, 0x00,
    0x01, 0x38, 0x00, 0x01, 0x63, 0x00,
];

/// Their index: a leaf for each, the node over both, and a chain down to the root.
const TWO_INDEXED: [u8; 58] = [
    0x01, 0xFF, 0x01, 0xDE, 0x50, 0x02, 0x01, 0x02, 0x04, 0x02, 0x16, 0x00, 0x12, 0x00, 0x12, 0x80,
    0x12, 0x40, 0x00, 0x06, 0x40, 0x80, 0x00, 0x00, 0x01, 0x38, 0x00, 0x06, 0x40, 0x80, 0x00, 0x00,
    0x02, 0x38, 0x00, 0x00, 0x00, 0x00, 0x00, 0x00, 0x00, 0x12, 0x00, 0x00, 0x00, 0x00, 0x00, 0x00,
    0x00, 0x02, 0x00, 0x00, 0x00, 0x00, 0x00, 0x00, 0x00, 0x10,
];

/// The file of the schema of such a table with a static type.
const STATIC_SCHEMA: &[u8] = b"bti-table 2\n(int; int; text; text)\nend\n";

/// The partition (1) with the static value `s` and the row (2) of value `a`.
const STATIC_DATA: [u8; 25] = [
    0x00, 0x06, 0x40, 0x80, 0x00, 0x00, 0x01, 0x38, 0x01, 0x00, 0x01, 0x73, 0x01, 0x00, 0x06, 0x40,
    0x80, 0x00, 0x00, 0x02, 0x38, 0x00, 0x01, 0x61, 0x00,
];

/// The strings of the partitions (0) to (3).
const P0: &[u8] = &[0x40, 0x7F, 0xFF, 0xFF, 0xFF, 0x38];

const P1: &[u8] = &[0x40, 0x80, 0x00, 0x00, 0x01, 0x38];

const P2: &[u8] = &[0x40, 0x80, 0x00, 0x00, 0x02, 0x38];

const P3: &[u8] = &[0x40, 0x80, 0x00, 0x00, 0x03, 0x38];

/// The string before the row (2), and that behind all rows.
const BEFORE_2: &[u8] = &[0x40, 0x80, 0x00, 0x00, 0x02, 0x20];

const AFTER: &[u8] = &[0x60];

/// A bound by its strings: that of a partition and that within it, which is empty where it names no more.
type Strings = (&'static [u8], &'static [u8]);

/// From where and up to where a scan goes, and the values of its entries.
type Scanned = (Option<Strings>, Option<Strings>, &'static [&'static [u8]]);

fn copy(alloc: Global, string: &[u8]) -> Result<ByteList, NoMemory> {
    let mut bytes = ByteList::new(alloc);
    bytes.extend(string)?;
    Ok(bytes)
}

fn bound(alloc: Global, strings: Option<Strings>) -> Result<Option<BoundString>, NoMemory> {
    let Some((partition, within)) = strings else {
        return Ok(None);
    };
    let clustering = if within.is_empty() {
        None
    } else {
        Some(copy(alloc, within)?)
    };
    Ok(Some(BoundString {
        partition: copy(alloc, partition)?,
        clustering,
    }))
}

/// Whether a scan gives these values, and then no more, however often it is asked.
fn gives<K: Store>(
    alloc: Global,
    store: &mut K,
    table: &mut OpenTable,
    row: &Scanned,
) -> Result<bool, TableFault>
    requires stands { StandsIn (K.files store.old) table.old }
    requires footer { IsSome table.old.footer }
    ensures stands { StandsIn (K.files store.new) table.new }
    ensures footer { IsSome table.new.footer }
{
    let from = bound(alloc, row.0)?;
    let to = bound(alloc, row.1)?;
    let mut scan = table.scan_between(store, from, to)?;
    for want in row.2 {
        match table.next_entry(store, &mut scan)? {
            Some(entry) if entry.value.as_slice() == *want => {}
            _ => return Ok(false),
        }
    }
    let ended = table.next_entry(store, &mut scan)?.is_none();
    Ok(ended && table.next_entry(store, &mut scan)?.is_none())
}

/// Whether each scan does.
fn all_give<K: Store>(
    alloc: Global,
    store: &mut K,
    table: &mut OpenTable,
    rows: &[Scanned],
) -> Result<bool, TableFault>
    requires stands { StandsIn (K.files store.old) table.old }
    requires footer { IsSome table.old.footer }
{
    for row in rows {
        if !gives(alloc, store, table, row)? {
            return Ok(false);
        }
    }
    Ok(true)
}

#[test]
fn ranges(rt: HostRuntime) -> Result<(), TestFail> {
    let alloc = rt.alloc();
    let mut store = MemStore::new(alloc, Vec::new(alloc));
    assert_eq!(rt; put(alloc, &mut store, Part::Schema, ROWS_SCHEMA)?, Ok(()));
    assert_eq!(rt;
        put(alloc, &mut store, Part::Data, &TWO_PARTITIONS)?,
        Ok(())
    );
    assert_eq!(rt;
        put(alloc, &mut store, Part::Partitions, &TWO_INDEXED)?,
        Ok(())
    );
    let mut table = OpenTable::open(alloc, &mut store, 1)?;
    table.load_footer(&mut store)?;
    let rows: [Scanned; 8] = [
        (None, None, &[b"a", b"b", b"c"]),
        (Some((P1, BEFORE_2)), Some((P2, AFTER)), &[b"b", b"c"]),
        (Some((P2, b"")), Some((P1, AFTER)), &[]),
        (Some((P0, BEFORE_2)), None, &[b"a", b"b", b"c"]),
        (Some((P1, AFTER)), None, &[b"c"]),
        (Some((P2, b"")), None, &[b"c"]),
        (Some((P3, b"")), None, &[]),
        (None, Some((P1, BEFORE_2)), &[b"a"]),
    ];
    assert!(rt; all_give(alloc, &mut store, &mut table, &rows)?);
    Ok(())
}

#[test]
fn static_values(rt: HostRuntime) -> Result<(), TestFail> {
    let alloc = rt.alloc();
    let mut store = MemStore::new(alloc, Vec::new(alloc));
    assert_eq!(rt;
        put(alloc, &mut store, Part::Schema, STATIC_SCHEMA)?,
        Ok(())
    );
    assert_eq!(rt; put(alloc, &mut store, Part::Data, &STATIC_DATA)?, Ok(()));
    assert_eq!(rt; put(alloc, &mut store, Part::Partitions, &ONE_PUT)?, Ok(()));
    let mut table = OpenTable::open(alloc, &mut store, 1)?;
    table.load_footer(&mut store)?;
    let rows: [Scanned; 4] = [
        (None, None, &[b"s", b"a"]),
        (Some((P1, b"")), Some((P1, b"")), &[b"s"]),
        (Some((P1, BEFORE_2)), None, &[b"a"]),
        (Some((P1, AFTER)), None, &[]),
    ];
    assert!(rt; all_give(alloc, &mut store, &mut table, &rows)?);
    Ok(())
}
