//! Rows of the writer and the readers.
ghost use Rattle.std.specs.Prelude.{IfOk, IsSome};

use super::*;
use bti_nodes::PackError;
use key_types::{ColType, Schema, TypeList, ValueType};
use outside::{FileId, MemStore, Part, Store};
use std::alloc::{AllocError, Global};
use std::test::Fail as TestFail;

const DATA: FileId = FileId {
    generation: 1,
    part: Part::Data,
};

/// The bytes of one partition with the key 1 and the value `a`.
const ONE_PUT: [u8; 16] = [
    0x00, 0x06, 0x40, 0x80, 0x00, 0x00, 0x01, 0x38, 0x01, 0x00, 0x01, 0x38, 0x00, 0x01, 0x61, 0x00,
];

fn int_schema(alloc: Global) -> Result<Schema, AllocError> {
    let int = Box::new(alloc, ColType::Int)?;
    let end = Box::new(alloc, TypeList::End)?;
    Ok(Schema {
        partition: TypeList::More(int, end),
        clustering: TypeList::End,
        value: ValueType::Text,
        static_value: None,
    })
}

fn write_one<K: Store>(alloc: Global, store: &mut K) -> Result<(), PackError> {
    let mut writer = DataWriter::new(alloc, DATA);
    writer.open_partition(&[0x40, 0x80, 0, 0, 1, 0x38], store)?;
    writer.row(&[0x38], b"a", store)?;
    writer.close_partition(store)?;
    writer.finish(store)
}

#[test]
fn one_partition_is_written(rt: HostRuntime) {
    let alloc = rt.alloc();
    let mut store = MemStore::new(alloc, Vec::new(alloc));
    assert_eq!(rt; write_one(alloc, &mut store), Ok(()));
    assert_eq!(rt; store.contents(DATA), Some(ONE_PUT.as_slice()));
}

/// The position behind what was found, the length of a row's value, and the position of damage.
fn found(found: Result<RowAt, DataError>) -> (u64, usize, u64) {
    match found {
        Ok(RowAt::Row(row)) => (row.end, row.value.len(), 0),
        Ok(RowAt::End(behind)) => (behind, 0, 0),
        Err(DataError::Damaged(damage)) => (0, 0, damage.position),
        Err(_) => (0, 0, 0),
    }
}

#[test]
fn one_partition_is_read(rt: HostRuntime) -> Result<(), TestFail> {
    let alloc = rt.alloc();
    let schema = int_schema(alloc)?;
    let mut store = MemStore::new(alloc, Vec::new(alloc));
    let _ = store.put_file(DATA, ONE_PUT.as_slice().to_vec(alloc)?);
    let head = read_partition_head(alloc, &schema, DATA, 0, &mut store);
    assert!(rt; head.is_ok_and(|head| head.rows_at == 8));
    for (at, want) in [(8, (15, 1, 0)), (15, (16, 0, 0)), (16, (0, 0, 16))] {
        let row = read_row(alloc, &schema, DATA, at, &mut store);
        assert_eq!(rt; found(row), want, "at {at}");
    }
    Ok(())
}

/// One partition with the text key 'a', in it a row with the int 1 of a reversed type and the blob FF.
const TEXT_KEY: [u8; 19] = [
    0x00, 0x04, 0x40, 0x61, 0x00, 0x38, 0x01, 0x00, 0x06, 0x40, 0x7F, 0xFF, 0xFF, 0xFE, 0x38, 0x00,
    0x01, 0xFF, 0x00,
];

fn text_schema(alloc: Global) -> Result<Schema, AllocError> {
    let text = Box::new(alloc, ColType::Text)?;
    let int = Box::new(alloc, ColType::Int)?;
    let reversed = Box::new(alloc, ColType::Reversed(int))?;
    Ok(Schema {
        partition: TypeList::More(text, Box::new(alloc, TypeList::End)?),
        clustering: TypeList::More(reversed, Box::new(alloc, TypeList::End)?),
        value: ValueType::Blob,
        static_value: None,
    })
}

#[test]
fn other_types_are_read(rt: HostRuntime) -> Result<(), TestFail> {
    let alloc = rt.alloc();
    let schema = text_schema(alloc)?;
    assert_eq!(rt; head_in(&schema, &TEXT_KEY), Some(&TEXT_KEY[2..6]));
    assert!(rt; head_in(&int_schema(alloc)?, &TEXT_KEY).is_none());
    assert!(rt; head_in(&schema, &ONE_PUT).is_none());
    let mut store = MemStore::new(alloc, Vec::new(alloc));
    let _ = store.put_file(DATA, TEXT_KEY.as_slice().to_vec(alloc)?);
    for (at, want) in [
        (6, (18, 1, 0)),
        (18, (19, 0, 0)),
        (0, (1, 0, 0)),
        (7, (8, 0, 0)),
        (8, (0, 0, 8)),
    ] {
        let row = read_row(alloc, &schema, DATA, at, &mut store);
        assert_eq!(rt; found(row), want, "at {at}");
    }
    Ok(())
}

/// One partition with the key 1 and the static value 's', in it a row with the int 2 and 'a'; and the start of one.
const STATIC: [u8; 28] = [
    0x00, 0x06, 0x40, 0x80, 0x00, 0x00, 0x01, 0x38, 0x01, 0x00, 0x01, 0x73, 0x01, 0x00, 0x06, 0x40,
    0x80, 0x00, 0x00, 0x02, 0x38, 0x00, 0x01, 0x61, 0x00, 0x01, 0x00, 0x01,
];

/// How many of these bytes are those of the partition.
const STATIC_PARTITION: usize = 25;

fn static_schema(alloc: Global) -> Result<Schema, AllocError>
    ensures { IfOk result (λ schema. IsSome schema.static_value) }
{
    let partition = Box::new(alloc, ColType::Int)?;
    let clustering = Box::new(alloc, ColType::Int)?;
    Ok(Schema {
        partition: TypeList::More(partition, Box::new(alloc, TypeList::End)?),
        clustering: TypeList::More(clustering, Box::new(alloc, TypeList::End)?),
        value: ValueType::Text,
        static_value: Some(ValueType::Text),
    })
}

fn write_static<K: Store>(alloc: Global, store: &mut K) -> Result<u64, PackError> {
    let mut writer = DataWriter::new(alloc, DATA);
    writer.open_partition(&STATIC[2..8], store)?;
    let behind = writer.static_part(Some(b"s"), store)?;
    writer.row(&STATIC[15..21], b"a", store)?;
    writer.close_partition(store)?;
    writer.finish(store)?;
    Ok(behind)
}

#[test]
fn a_static_part_is_written(rt: HostRuntime) {
    let alloc = rt.alloc();
    let mut store = MemStore::new(alloc, Vec::new(alloc));
    assert_eq!(rt; write_static(alloc, &mut store), Ok(12));
    assert_eq!(rt; store.contents(DATA), Some(&STATIC[..STATIC_PARTITION]));
}

/// The position behind a static part, the length of its value, and the position of damage.
fn found_static_part(found: Result<StaticPart, DataError>) -> (u64, usize, u64) {
    match found {
        Ok(static_part) => (
            static_part.end,
            static_part.value.map_or(0, |value| value.len()),
            0,
        ),
        Err(DataError::Damaged(damage)) => (0, 0, damage.position),
        Err(_) => (0, 0, 0),
    }
}

#[test]
fn static_parts_are_read(rt: HostRuntime) -> Result<(), TestFail> {
    let alloc = rt.alloc();
    let schema = static_schema(alloc)?;
    let mut store = MemStore::new(alloc, Vec::new(alloc));
    let _ = store.put_file(DATA, STATIC.as_slice().to_vec(alloc)?);
    for (at, want) in [
        (8, (12, 1, 0)),
        (24, (25, 0, 0)),
        (25, (0, 0, 25)),
        (2, (0, 0, 2)),
    ] {
        let static_part = read_static_part(alloc, &schema, DATA, at, &mut store);
        assert_eq!(rt; found_static_part(static_part), want, "at {at}");
    }
    assert_eq!(rt;
        static_part_in(&schema, &[1, 0, 2, 0x73]),
        Err(ParseRow::Short)
    );
    assert_eq!(rt;
        static_part_in(&schema, &[1, 0, 1, 0xFF]),
        Err(ParseRow::Bad)
    );
    assert_eq!(rt; static_part_in(&schema, &[0]), Ok(None));
    Ok(())
}

#[test]
fn rows_are_cut_off_or_bad(rt: HostRuntime) -> Result<(), TestFail> {
    let schema = int_schema(rt.alloc())?;
    for (bytes, want) in [
        (b"".as_slice(), ParseRow::Short),
        (&[7], ParseRow::Bad),
        (&[1, 5], ParseRow::Short),
        (&[1, 4, 1], ParseRow::Bad),
        (&[1, 0, 2, 0x39], ParseRow::Short),
        (&[1, 0, 1, 0x38, 0, 2, b'a'], ParseRow::Short),
        (&[1, 0, 1, 0x39, 0, 0], ParseRow::Bad),
        (&[1, 0, 1, 0x38, 0, 1, 0xFF], ParseRow::Bad),
    ] {
        assert!(rt;
            row_in(&schema, bytes).is_err_and(|e| e == want),
            "{bytes:?}"
        );
    }
    Ok(())
}
