//! Worked texts of bounds, with their strings.
use super::*;
use key_types::{ByteList, ColType, NoMemory, Schema, TypeList, ValueType};
use shard_table::KeyList;
use std::alloc::{AllocError, Global};
use std::process::Abort;
use std::test::Fail;

/// Partitions of one tinyint.
fn small_numbers(alloc: Global) -> Result<Schema, AllocError> {
    let kind = Box::new(alloc, ColType::TinyInt)?;
    let end = Box::new(alloc, TypeList::End)?;
    Ok(Schema {
        partition: TypeList::More(kind, end),
        clustering: TypeList::End,
        value: ValueType::Text,
        static_value: None,
    })
}

/// A text, and the strings of its bounds one behind the other; none where it is refused.
type Row<'a> = (&'a str, Option<&'a [u8]>);

/// The strings one behind the other.
fn joined(alloc: Global, bounds: &KeyList) -> Result<ByteList, NoMemory> {
    let mut all = ByteList::new(alloc);
    for bound in bounds.as_slice() {
        all.extend(bound.as_slice())?;
    }
    Ok(all)
}

fn assert_read(rt: &impl Abort, alloc: Global, schema: &Schema, row: Row) -> Result<(), Fail> {
    let (text, want) = row;
    match want {
        Some(strings) => {
            let all = joined(alloc, &read_bounds(alloc, schema, text)?)?;
            assert_eq!(rt; all.as_slice(), strings, "at {text}");
        }
        None => {
            let refused = read_bounds(alloc, schema, text).err();
            assert_eq!(rt; refused, Some(BoundsError::Refused), "at {text}");
        }
    }
    Ok(())
}

#[test]
fn texts_and_strings(rt: HostRuntime) -> Result<(), Fail> {
    let alloc = rt.alloc();
    let schema = small_numbers(alloc)?;
    let seven: &[u8] =
        b"\x40\x81\x38\x40\x82\x38\x40\x83\x38\x40\x84\x38\x40\x85\x38\x40\x86\x38\x40\x87\x38";
    let rows: [Row; 11] = [
        ("", Some(b"")),
        ("  ", Some(b"")),
        ("(-1)(1)", Some(b"\x40\x7f\x38\x40\x81\x38")),
        (" ( -1 )  (1) ", Some(b"\x40\x7f\x38\x40\x81\x38")),
        ("(1)(2)(3)(4)(5)(6)(7)", Some(seven)),
        ("(1)(2)(3)(4)(5)(6)(7)(8)", None),
        ("(1)(-1)", None),
        ("(1)(1)", None),
        ("(1)(128)", None),
        ("(1), (2)", None),
        ("(1)(2) x", None),
    ];
    for row in rows {
        assert_read(&rt, alloc, &schema, row)?;
    }
    Ok(())
}
