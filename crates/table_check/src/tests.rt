//! Tables whose files stand in memory, checked as they are and with one byte changed.
use crate::{Verdict, check};
use bti_nodes::{Cause, Damage};
use data_file::Counts;
use data_walk::{Clash, Mismatch};
use outside::{Failed, FileId, MemStore, Part, Store};
use std::alloc::{AllocError, Global};
use std::test::{Fail, *};
use table_reader::TableFault;

/// The file of the schema of a table with one partition component and none within a partition.
const SCHEMA: &[u8] = b"bti-table 1\n(int; ; text)\nend\n";

/// That of a table with rows of one component.
const ROW_SCHEMA: &[u8] = b"bti-table 1\n(int; int; blob)\nend\n";

/// Data.db of one partition of one row: its head, its row, whose value is `a`, and its end.
const ONE_ROW: [u8; 16] = [
    0x00, 0x06, 0x40, 0x80, 0x00, 0x00, 0x01, 0x38, 0x01, 0x00, 0x01, 0x38, 0x00, 0x01, 0x61, 0x00,
];

/// The partition index of that partition.
const ONE_PUT: [u8; 44] = [
    0x01, 0xFF, 0x12, 0x40, 0x00, 0x06, 0x40, 0x80, 0x00, 0x00, 0x01, 0x38, 0x00, 0x06, 0x40, 0x80,
    0x00, 0x00, 0x01, 0x38, 0x00, 0x00, 0x00, 0x00, 0x00, 0x00, 0x00, 0x04, 0x00, 0x00, 0x00, 0x00,
    0x00, 0x00, 0x00, 0x01, 0x00, 0x00, 0x00, 0x00, 0x00, 0x00, 0x00, 0x02,
];

/// The row index of one partition of forty rows: a trie of two separators, and the entry at 20.
const FORTY_ROWS: [u8; 48] = [
    0x02, 0x43, 0x2B, 0x02, 0x86, 0x4E, 0x50, 0x02, 0x11, 0x22, 0x06, 0x03, 0x16, 0x00, 0x12, 0x00,
    0x12, 0x80, 0x12, 0x40, 0x00, 0x06, 0x40, 0x80, 0x00, 0x00, 0x01, 0x38, 0x00, 0x00, 0x00, 0x00,
    0x00, 0x00, 0x00, 0x00, 0x00, 0x00, 0x00, 0x00, 0x00, 0x00, 0x00, 0x12, 0x00, 0x00, 0x00, 0x03,
];

/// What a check answers of files that clash.
fn unsound(part: Part, position: u64, clash: Clash) -> Result<Verdict, TableFault> {
    Ok(Verdict::Unsound(Mismatch {
        part,
        position,
        clash,
    }))
}

/// What it answers of a number.
fn number(part: Part, position: u64, found: i128, wanted: i128) -> Result<Verdict, TableFault> {
    unsound(part, position, Clash::Number { found, wanted })
}

/// What it answers of damage.
fn damaged(part: Part, position: u64, cause: Cause) -> Result<Verdict, TableFault> {
    Err(TableFault::Damaged(Damage {
        part,
        position,
        cause,
    }))
}

/// What it answers of files that stand for a map.
fn sound(partitions: u64, rows: u64) -> Result<Verdict, TableFault> {
    Ok(Verdict::Sound(Counts { partitions, rows }))
}

/// Puts a file of the first generation into a store, with one byte in place of that which stands there.
fn put(
    alloc: Global,
    store: &mut MemStore,
    part: Part,
    bytes: &[u8],
    change: Option<(usize, u8)>,
) -> Result<Result<(), Failed>, AllocError> {
    let mut file = Vec::new(alloc);
    file.extend_from_slice(bytes)?;
    if let Some((at, byte)) = change {
        if at < file.len() {
            file[at] = byte;
        }
    }
    let name = FileId {
        generation: 1,
        part,
    };
    Ok(store.put_file(name, file))
}

#[test]
fn no_partition(rt: HostRuntime) -> Result<(), Fail> {
    let alloc = rt.alloc();
    let mut store = MemStore::new(alloc, Vec::new(alloc));
    assert_eq!(rt; check(alloc, &mut store, 1), Err(TableFault::Unfinished));
    assert_eq!(rt; put(alloc, &mut store, Part::Schema, SCHEMA, None)?, Ok(()));
    let bad_footer = damaged(Part::Partitions, 0, Cause::BadFooter);
    assert_eq!(rt; check(alloc, &mut store, 1), bad_footer);
    assert_eq!(rt;
        put(alloc, &mut store, Part::Partitions, &[0; 28], None)?,
        Ok(())
    );
    assert_eq!(rt; check(alloc, &mut store, 1), sound(0, 0));
    assert_eq!(rt; put(alloc, &mut store, Part::Data, &ONE_ROW, None)?, Ok(()));
    let other_key = unsound(Part::Partitions, 4, Clash::Key);
    assert_eq!(rt; check(alloc, &mut store, 1), other_key);
    Ok(())
}

#[test]
fn one_put(rt: HostRuntime) -> Result<(), Fail> {
    let alloc = rt.alloc();
    for (part, at, byte, answer) in [
        (Part::Rows, 0, 0, sound(1, 1)),
        (
            Part::Partitions,
            1,
            0xFE,
            number(Part::Partitions, 0, -2, -1),
        ),
        (
            Part::Partitions,
            3,
            0x41,
            unsound(Part::Partitions, 0, Clash::Path),
        ),
        (
            Part::Partitions,
            10,
            0x02,
            unsound(Part::Partitions, 20, Clash::Key),
        ),
        (Part::Partitions, 35, 2, number(Part::Partitions, 20, 2, 1)),
        (
            Part::Partitions,
            43,
            0x03,
            damaged(Part::Partitions, 3, Cause::BadPointer),
        ),
        (
            Part::Partitions,
            36,
            1,
            damaged(Part::Partitions, 20, Cause::BadFooter),
        ),
        (Part::Data, 8, 0x00, unsound(Part::Data, 0, Clash::Order)),
        (Part::Data, 15, 0x02, damaged(Part::Data, 15, Cause::BadRow)),
    ] {
        let mut store = MemStore::new(alloc, Vec::new(alloc));
        assert_eq!(rt; put(alloc, &mut store, Part::Schema, SCHEMA, None)?, Ok(()));
        for (file, bytes) in [
            (Part::Data, ONE_ROW.as_slice()),
            (Part::Partitions, ONE_PUT.as_slice()),
        ] {
            let change = if file == part { Some((at, byte)) } else { None };
            assert_eq!(rt; put(alloc, &mut store, file, bytes, change)?, Ok(()));
        }
        assert_eq!(rt; check(alloc, &mut store, 1), answer);
    }
    Ok(())
}

/// Data.db of a partition of forty rows with values of 1,000 bytes.
fn forty_rows(alloc: Global) -> Result<Vec<u8>, AllocError> {
    let mut bytes = Vec::new(alloc);
    bytes.extend_from_slice(&ONE_ROW[..8])?;
    for n in 0..40u8 {
        bytes.extend_from_slice(&[0x01, 0x00, 0x06, 0x40, 0x80, 0x00, 0x00, n, 0x38])?;
        bytes.extend_from_slice(&[0x03, 0xE8])?;
        bytes.extend_from_slice(&[n; 1000])?;
    }
    bytes.push(0)?;
    Ok(bytes)
}

#[test]
fn row_indexes(rt: HostRuntime) -> Result<(), Fail> {
    let alloc = rt.alloc();
    let mut store = MemStore::new(alloc, Vec::new(alloc));
    assert_eq!(rt;
        put(alloc, &mut store, Part::Schema, ROW_SCHEMA, None)?,
        Ok(())
    );
    let data = forty_rows(alloc)?;
    assert_eq!(rt;
        put(alloc, &mut store, Part::Data, data.as_slice(), None)?,
        Ok(())
    );
    for (number_byte, at, byte, answer) in [
        (20, 0, 0x02, sound(1, 40)),
        (20, 19, 0x00, unsound(Part::Rows, 0, Clash::Path)),
        (20, 2, 0x2C, number(Part::Rows, 0, 17196, 17195)),
        (20, 26, 0x02, unsound(Part::Rows, 20, Clash::Key)),
        (20, 35, 0x01, number(Part::Rows, 20, 1, 0)),
        (20, 47, 0x04, number(Part::Rows, 20, 4, 3)),
        (20, 43, 0x14, damaged(Part::Rows, 20, Cause::BadEntry)),
        (20, 43, 0x00, unsound(Part::Rows, 0, Clash::Path)),
        (0xFF, 0, 0x02, number(Part::Partitions, 0, -1, 0)),
    ] {
        let index = Some((1, number_byte));
        assert_eq!(rt;
            put(alloc, &mut store, Part::Partitions, &ONE_PUT, index)?,
            Ok(())
        );
        assert_eq!(rt;
            put(alloc, &mut store, Part::Rows, &FORTY_ROWS, Some((at, byte)))?,
            Ok(())
        );
        assert_eq!(rt; check(alloc, &mut store, 1), answer);
    }
    Ok(())
}
