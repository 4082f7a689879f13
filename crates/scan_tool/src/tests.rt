//! Ranges of tables in memory.
use super::*;
use bti_nodes::{Cause, Damage};
use outside::{FileId, MemSink, MemStore, Part, Store};
use std::alloc::{AllocError, Global};
use std::test::{Fail as TestFail, *};

/// The file of the schema of a table with one component in a partition and one within it.
const SCHEMA: &[u8] = b"bti-table 1\n(int; int; text)\nend\n";

/// Two partitions: (1) with the rows (1), of value `a`, and (2), `b`, and (2) with the row (1), `c`.
const DATA: [u8; 54] = [
    0x00, 0x06, 0x40, 0x80, 0x00, 0x00, 0x01, 0x38, 0x01, 0x00, 0x06, 0x40, 0x80, 0x00, 0x00, 0x01,
    0x38, 0x00, 0x01, 0x61, 0x01, 0x00, 0x06, 0x40, 0x80, 0x00, 0x00, 0x02, 0x38, 0x00, 0x01, 0x62,
    0x00, 0x00, 0x06, 0x40, 0x80, 0x00, 0x00, 0x02, 0x38, 0x01, 0x00, 0x06, 0x40, 0x80, 0x00, 0x00,
    0x01, 0x38, 0x00, 0x01, 0x63, 0x00,
];

/// Their index: a leaf for each, the node over both, and a chain down to the root.
const INDEX: [u8; 58] = [
    0x01, 0xFF, 0x01, 0xDE, 0x50, 0x02, 0x01, 0x02, 0x04, 0x02, 0x16, 0x00, 0x12, 0x00, 0x12, 0x80,
    0x12, 0x40, 0x00, 0x06, 0x40, 0x80, 0x00, 0x00, 0x01, 0x38, 0x00, 0x06, 0x40, 0x80, 0x00, 0x00,
    0x02, 0x38, 0x00, 0x00, 0x00, 0x00, 0x00, 0x00, 0x00, 0x12, 0x00, 0x00, 0x00, 0x00, 0x00, 0x00,
    0x00, 0x02, 0x00, 0x00, 0x00, 0x00, 0x00, 0x00, 0x00, 0x10,
];

/// The file of the schema of such a table with a static type.
const STATIC_SCHEMA: &[u8] = b"bti-table 2\n(int; int; text; text)\nend\n";

/// The partition (1) with the static value `s` and the row (2) of value `a`.
const STATIC_DATA: [u8; 25] = [
    0x00, 0x06, 0x40, 0x80, 0x00, 0x00, 0x01, 0x38, 0x01, 0x00, 0x01, 0x73, 0x01, 0x00, 0x06, 0x40,
    0x80, 0x00, 0x00, 0x02, 0x38, 0x00, 0x01, 0x61, 0x00,
];

/// Its index.
const STATIC_INDEX: [u8; 44] = [
    0x01, 0xFF, 0x12, 0x40, 0x00, 0x06, 0x40, 0x80, 0x00, 0x00, 0x01, 0x38, 0x00, 0x06, 0x40, 0x80,
    0x00, 0x00, 0x01, 0x38, 0x00, 0x00, 0x00, 0x00, 0x00, 0x00, 0x00, 0x04, 0x00, 0x00, 0x00, 0x00,
    0x00, 0x00, 0x00, 0x01, 0x00, 0x00, 0x00, 0x00, 0x00, 0x00, 0x00, 0x02,
];

/// The bytes of the schema's file, of Data.db and of Partitions.db.
type Table = (&'static [u8], &'static [u8], &'static [u8]);

/// From where and up to where a scan goes, what it prints, and how it ends.
type Row = (
    Option<&'static [u8]>,
    Option<&'static [u8]>,
    &'static [u8],
    Result<(), ScanError>,
);

/// Damage of a file of a table.
const fn damaged(part: Part, position: u64, cause: Cause) -> Result<(), ScanError> {
    Err(ScanError::Damaged(Damage {
        part,
        position,
        cause,
    }))
}

/// Puts a file of the first generation into a store.
fn put(alloc: Global, store: &mut MemStore, part: Part, bytes: &[u8]) -> Result<(), AllocError> {
    let mut file = Vec::new(alloc);
    file.extend_from_slice(bytes)?;
    let name = FileId {
        generation: 1,
        part,
    };
    let _ = store.put_file(name, file);
    Ok(())
}

/// Whether a scan of the store prints this.
fn prints<K: Store>(alloc: Global, store: &mut K, row: &Row) -> bool {
    let mut out = MemSink::new(alloc, Vec::new(alloc));
    let result = print_range(alloc, &mut out, store, 1, row.0, row.1);
    result == row.3 && out.written() == row.2
}

/// Whether the scans of a table print this.
fn all_print(alloc: Global, table: &Table, rows: &[Row]) -> Result<bool, AllocError> {
    let mut store = MemStore::new(alloc, Vec::new(alloc));
    put(alloc, &mut store, Part::Schema, table.0)?;
    put(alloc, &mut store, Part::Data, table.1)?;
    put(alloc, &mut store, Part::Partitions, table.2)?;
    for row in rows {
        if !prints(alloc, &mut store, row) {
            return Ok(false);
        }
    }
    Ok(true)
}

#[test]
fn ranges_are_printed(rt: HostRuntime) -> Result<(), TestFail> {
    let alloc = rt.alloc();
    let rows: [Row; 9] = [
        (
            None,
            None,
            b"(1) (1) = 'a'\n(1) (2) = 'b'\n(2) (1) = 'c'\nrows 3\n",
            Ok(()),
        ),
        (
            Some(b"(1) (2)"),
            Some(b"(2)"),
            b"(1) (2) = 'b'\n(2) (1) = 'c'\nrows 2\n",
            Ok(()),
        ),
        (Some(b"(2)"), Some(b"(1)"), b"rows 0\n", Ok(())),
        (Some(b" ( 2 )() "), None, b"(2) (1) = 'c'\nrows 1\n", Ok(())),
        (None, Some(b"(1) (1)"), b"(1) (1) = 'a'\nrows 1\n", Ok(())),
        (Some(b"(1) (2, 3)"), None, b"", Err(ScanError::Usage)),
        (None, Some(b"()"), b"", Err(ScanError::Usage)),
        (None, Some(b"(1) (2147483648)"), b"", Err(ScanError::Usage)),
        (Some(b"(1) static"), None, b"", Err(ScanError::Usage)),
    ];
    assert!(rt; all_print(alloc, &(SCHEMA, &DATA, &INDEX), &rows)?);
    let rows: [Row; 3] = [
        (
            None,
            None,
            b"(1) static = 's'\n(1) (2) = 'a'\nrows 1\n",
            Ok(()),
        ),
        (
            None,
            Some(b"(1) (1)"),
            b"(1) static = 's'\nrows 0\n",
            Ok(()),
        ),
        (Some(b"(1) (2)"), None, b"(1) (2) = 'a'\nrows 1\n", Ok(())),
    ];
    assert!(rt; all_print(alloc, &(STATIC_SCHEMA, &STATIC_DATA, &STATIC_INDEX), &rows)?);
    let no_footer = damaged(Part::Partitions, 33, Cause::BadFooter);
    let rows: [Row; 1] = [(None, None, b"", no_footer)];
    assert!(rt; all_print(alloc, &(SCHEMA, &DATA, &INDEX[..57]), &rows)?);
    let no_head = damaged(Part::Data, 33, Cause::BadHead);
    let rows: [Row; 1] = [(None, None, b"(1) (1) = 'a'\n(1) (2) = 'b'\n", no_head)];
    assert!(rt; all_print(alloc, &(SCHEMA, &DATA[..40], &INDEX), &rows)?);
    let rows: [Row; 1] = [(None, None, b"", Err(ScanError::Unfinished))];
    assert!(rt; all_print(alloc, &(b"", &DATA, &INDEX), &rows)?);
    Ok(())
}
