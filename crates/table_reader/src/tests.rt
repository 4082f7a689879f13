//! Tables whose files stand in memory.
use super::*;
use bti_nodes::{Cause, Damage};
use outside::{Failed, FileId, MemStore, Part, Store};
use std::alloc::{AllocError, Global};
use std::test::{Fail as TestFail, *};

/// The file of the schema of a table with one partition component and none within a partition.
const SCHEMA: &[u8] = b"bti-table 1\n(int; ; text)\nend\n";

/// The partition index of one partition of one block.
pub(crate) const ONE_PUT: [u8; 44] = [
    0x01, 0xFF, 0x12, 0x40, 0x00, 0x06, 0x40, 0x80, 0x00, 0x00, 0x01, 0x38, 0x00, 0x06, 0x40, 0x80,
    0x00, 0x00, 0x01, 0x38, 0x00, 0x00, 0x00, 0x00, 0x00, 0x00, 0x00, 0x04, 0x00, 0x00, 0x00, 0x00,
    0x00, 0x00, 0x00, 0x01, 0x00, 0x00, 0x00, 0x00, 0x00, 0x00, 0x00, 0x02,
];

/// The data file of that partition: its head, its row, whose value is `a`, and its end.
const ONE_ROW: [u8; 16] = [
    0x00, 0x06, 0x40, 0x80, 0x00, 0x00, 0x01, 0x38, 0x01, 0x00, 0x01, 0x38, 0x00, 0x01, 0x61, 0x00,
];

/// The row index of one partition of forty rows: a trie of two separators, and the entry at 20.
const FORTY_ROWS: [u8; 48] = [
    0x02, 0x43, 0x2B, 0x02, 0x86, 0x4E, 0x50, 0x02, 0x11, 0x22, 0x06, 0x03, 0x16, 0x00, 0x12, 0x00,
    0x12, 0x80, 0x12, 0x40, 0x00, 0x06, 0x40, 0x80, 0x00, 0x00, 0x01, 0x38, 0x00, 0x00, 0x00, 0x00,
    0x00, 0x00, 0x00, 0x00, 0x00, 0x00, 0x00, 0x00, 0x00, 0x00, 0x00, 0x12, 0x00, 0x00, 0x00, 0x03,
];

/// A partition with the static value `s`, in it the row 2 with `a`.
const STATIC: [u8; 25] = [
    0x00, 0x06, 0x40, 0x80, 0x00, 0x00, 0x01, 0x38, 0x01, 0x00, 0x01, 0x73, 0x01, 0x00, 0x06, 0x40,
    0x80, 0x00, 0x00, 0x02, 0x38, 0x00, 0x01, 0x61, 0x00,
];

/// Puts a file of the first generation into a store.
pub(crate) fn put(
    alloc: Global,
    store: &mut MemStore,
    part: Part,
    bytes: &[u8],
) -> Result<Result<(), Failed>, AllocError> {
    let mut file = Vec::new(alloc);
    file.extend_from_slice(bytes)?;
    let name = FileId {
        generation: 1,
        part,
    };
    Ok(store.put_file(name, file))
}

/// The string of a small int as the only component.
fn string_of(n: u8) -> [u8; 6] {
    [0x40, 0x80, 0x00, 0x00, n, 0x38]
}

/// How many bytes the value has that a get of the partition 1 finds, and its first.
fn got<K: Store>(
    alloc: Global,
    store: &mut K,
    clustering: Option<&[u8]>,
) -> Result<Option<(usize, Option<u8>)>, TableFault> {
    let mut table = OpenTable::open(alloc, store, 1)?;
    table.load_footer(store)?;
    match table.get(store, &string_of(1), clustering)? {
        Some(value) => Ok(Some((value.len(), value.as_slice().first().copied()))),
        None => Ok(None),
    }
}

/// Damage of a part.
fn damaged<T>(part: Part, position: u64, cause: Cause) -> Result<T, TableFault> {
    Err(TableFault::Damaged(Damage {
        part,
        position,
        cause,
    }))
}

#[test]
fn whole_tables_open(rt: HostRuntime) -> Result<(), TestFail> {
    let alloc = rt.alloc();
    let mut store = MemStore::new(alloc, Vec::new(alloc));
    let cut = &SCHEMA[..SCHEMA.len() - 1];
    assert_eq!(rt; put(alloc, &mut store, Part::Schema, cut)?, Ok(()));
    assert_eq!(rt; got(alloc, &mut store, None), Err(TableFault::Unfinished));
    assert_eq!(rt; put(alloc, &mut store, Part::Schema, SCHEMA)?, Ok(()));
    assert_eq!(rt;
        got(alloc, &mut store, None),
        damaged(Part::Partitions, 0, Cause::BadFooter)
    );
    assert_eq!(rt; put(alloc, &mut store, Part::Partitions, &[0; 28])?, Ok(()));
    assert_eq!(rt; got(alloc, &mut store, None), Ok(None));
    Ok(())
}

#[test]
fn one_put(rt: HostRuntime) -> Result<(), TestFail> {
    let alloc = rt.alloc();
    let mut store = MemStore::new(alloc, Vec::new(alloc));
    assert_eq!(rt; put(alloc, &mut store, Part::Schema, SCHEMA)?, Ok(()));
    assert_eq!(rt; put(alloc, &mut store, Part::Partitions, &ONE_PUT)?, Ok(()));
    assert_eq!(rt; put(alloc, &mut store, Part::Data, &ONE_ROW)?, Ok(()));
    for (clustering, want) in [
        (Some(&[0x38][..]), Ok(Some((1, Some(0x61))))),
        (Some(&[0x37][..]), Ok(None)),
        (None, Ok(None)),
    ] {
        assert_eq!(rt; got(alloc, &mut store, clustering), want);
    }
    for (at, [first, second], want) in [
        (
            2,
            [0x50, 0x00],
            damaged(Part::Partitions, 2, Cause::BadOrder),
        ),
        (0, [0x01, 0xFE], damaged(Part::Data, 1, Cause::BadHead)),
        (0, [0x01, 0x00], damaged(Part::Rows, 0, Cause::BadEntry)),
    ] {
        let mut bytes = ONE_PUT;
        bytes[at] = first;
        bytes[at + 1] = second;
        assert_eq!(rt; put(alloc, &mut store, Part::Partitions, &bytes)?, Ok(()));
        assert_eq!(rt; got(alloc, &mut store, Some(&[0x38])), want);
    }
    Ok(())
}

/// A partition of forty rows with values of 1,000 bytes.
fn forty_rows(alloc: Global) -> Result<Vec<u8>, AllocError> {
    let mut bytes = Vec::new(alloc);
    bytes.extend_from_slice(&ONE_ROW[..8])?;
    for n in 0..40u8 {
        bytes.extend_from_slice(&[0x01, 0x00, 0x06])?;
        bytes.extend_from_slice(&string_of(n))?;
        bytes.extend_from_slice(&[0x03, 0xE8])?;
        bytes.extend_from_slice(&[n; 1000])?;
    }
    bytes.push(0)?;
    Ok(bytes)
}

#[test]
fn rows_of_blocks(rt: HostRuntime) -> Result<(), TestFail> {
    let alloc = rt.alloc();
    let mut store = MemStore::new(alloc, Vec::new(alloc));
    let schema = b"bti-table 1\n(int; int; blob)\nend\n";
    assert_eq!(rt; put(alloc, &mut store, Part::Schema, schema)?, Ok(()));
    let mut index = ONE_PUT;
    index[1] = 20;
    assert_eq!(rt; put(alloc, &mut store, Part::Partitions, &index)?, Ok(()));
    assert_eq!(rt; put(alloc, &mut store, Part::Rows, &FORTY_ROWS)?, Ok(()));
    let mut bytes = forty_rows(alloc)?;
    assert_eq!(rt;
        put(alloc, &mut store, Part::Data, bytes.as_slice())?,
        Ok(())
    );
    for n in [0, 16, 17, 33, 34, 39] {
        let value = got(alloc, &mut store, Some(&string_of(n)));
        assert_eq!(rt; value, Ok(Some((1000, Some(n)))));
    }
    assert_eq!(rt; got(alloc, &mut store, Some(&string_of(40))), Ok(None));
    bytes.truncate(17195);
    assert_eq!(rt;
        put(alloc, &mut store, Part::Data, bytes.as_slice())?,
        Ok(())
    );
    let value = got(alloc, &mut store, Some(&string_of(17)));
    assert_eq!(rt; value, damaged(Part::Data, 17195, Cause::BadRow));
    Ok(())
}

#[test]
fn static_values(rt: HostRuntime) -> Result<(), TestFail> {
    let alloc = rt.alloc();
    let mut store = MemStore::new(alloc, Vec::new(alloc));
    let schema = b"bti-table 2\n(int; int; text; text)\nend\n";
    assert_eq!(rt; put(alloc, &mut store, Part::Schema, schema)?, Ok(()));
    assert_eq!(rt; put(alloc, &mut store, Part::Partitions, &ONE_PUT)?, Ok(()));
    assert_eq!(rt; put(alloc, &mut store, Part::Data, &STATIC)?, Ok(()));
    assert_eq!(rt; got(alloc, &mut store, None), Ok(Some((1, Some(0x73)))));
    assert_eq!(rt;
        got(alloc, &mut store, Some(&string_of(2))),
        Ok(Some((1, Some(0x61))))
    );
    assert_eq!(rt; got(alloc, &mut store, Some(&string_of(1))), Ok(None));
    assert_eq!(rt; put(alloc, &mut store, Part::Data, &STATIC[..8])?, Ok(()));
    assert_eq!(rt;
        got(alloc, &mut store, None),
        damaged(Part::Data, 8, Cause::BadRow)
    );
    Ok(())
}

#[test]
fn rows_of_a_block(rt: HostRuntime) -> Result<(), TestFail> {
    let alloc = rt.alloc();
    let mut store = MemStore::new(alloc, Vec::new(alloc));
    assert_eq!(rt; put(alloc, &mut store, Part::Schema, SCHEMA)?, Ok(()));
    let table = OpenTable::open(alloc, &mut store, 1)?;
    let schema = table.schema();
    let row = &ONE_ROW[8..];
    assert_eq!(rt;
        find_row(schema, row, 8, 16384, &[0x38]),
        Ok(Some(&row[6..7]))
    );
    assert_eq!(rt; find_row(schema, row, 8, 16384, &[0x37]), Ok(None));
    assert_eq!(rt; find_row(schema, row, 8, 16384, &[0x39]), Ok(None));
    assert_eq!(rt;
        find_row(schema, &row[..7], 8, 16384, &[0x39]),
        Err(Stop::Short(15))
    );
    assert_eq!(rt;
        find_row(schema, &row[6..], 8, 16384, &[0x38]),
        Err(Stop::Bad(8))
    );
    Ok(())
}
