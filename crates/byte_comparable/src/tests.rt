//! Vectors of encodings and of strings.
ghost use Rattle.std.specs.Prelude.{◌≡◌, IfOk, IsTrue};
ghost use Rattle.key_types.specs.Kinds.{kind_of, kinds_of, more, end, tuple, int, text};
ghost use Rattle.key_types.specs.Layout.{is_layout_by};

use super::*;
use key_types::{ByteList, ColType, Schema, TypeList, Value, ValueList, ValueType, fits};
use std::alloc::Global;
use std::cmp::Ordering;
use std::process::Abort;
use std::test::Fail;

fn one_kind(alloc: Global, kind: ColType) -> Result<TypeList, Fail>
    ensures { IfOk result (λ kinds. kinds_of kinds ≡ more (kind_of kind) end) }
{
    Ok(TypeList::More(Box::new(alloc, kind)?, Box::new(alloc, TypeList::End)?))
}

fn schema_of(alloc: Global, partition: ColType, clustering: ColType) -> Result<Schema, Fail>
    requires { IsTrue (is_layout_by (more (kind_of partition) end) (more (kind_of clustering) end)) }
{
    Ok(Schema {
        partition: one_kind(alloc, partition)?,
        clustering: one_kind(alloc, clustering)?,
        value: ValueType::Text,
        static_value: None,
    })
}

fn pair_kind(alloc: Global) -> Result<ColType, Fail>
    ensures { IfOk result (λ kind. kind_of kind ≡ tuple (more int (more text end))) }
{
    let text = one_kind(alloc, ColType::Text)?;
    Ok(ColType::Tuple(TypeList::More(Box::new(alloc, ColType::Int)?, Box::new(alloc, text)?)))
}

fn reversed_kind(alloc: Global, kind: ColType) -> Result<ColType, Fail> {
    Ok(ColType::Reversed(Box::new(alloc, kind)?))
}

fn one_value(alloc: Global, value: Value) -> Result<ValueList, Fail> {
    Ok(ValueList::More(Box::new(alloc, value)?, Box::new(alloc, ValueList::End)?))
}

fn bytes_value(alloc: Global, bytes: &[u8]) -> Result<Value, Fail> {
    Ok(Value::Bytes(ByteList::from_vec(bytes.to_vec(alloc)?)))
}

/// The tuple (1, 'a').
fn pair(alloc: Global) -> Result<Value, Fail> {
    let text = one_value(alloc, bytes_value(alloc, b"a")?)?;
    Ok(Value::Tuple(ValueList::More(Box::new(alloc, Value::Number(1))?, Box::new(alloc, text)?)))
}

fn assert_spelled(
    rt: &impl Abort,
    alloc: Global,
    kind: &ColType,
    value: Value,
    want: &[u8],
) -> Result<(), Fail> {
    assert!(rt; fits(kind, &value));
    let mut out = ByteList::new(alloc);
    encode_into(kind, &value, &mut out)?;
    assert_eq!(rt; out.as_slice(), want);
    Ok(())
}

#[test]
fn numbers_go_by_their_length(rt: HostRuntime) -> Result<(), Fail> {
    let alloc = rt.alloc();
    let rows: [(i64, &[u8]); 9] = [
        (63, &[0xBF]),
        (64, &[0xC0, 0x40]),
        (0, &[0x80]),
        (-1, &[0x7F]),
        (-64, &[0x40]),
        (-65, &[0x3F, 0xBF]),
        (1 << 55, &[0xFF, 0x80, 0x80, 0, 0, 0, 0, 0, 0]),
        (i64::MAX, &[0xFF; 9]),
        (i64::MIN, &[0; 9]),
    ];
    for (number, want) in rows {
        assert_spelled(&rt, alloc, &ColType::BigInt, Value::Number(number), want)?;
    }
    Ok(())
}

#[test]
fn zeros_in_blobs(rt: HostRuntime) -> Result<(), Fail> {
    let alloc = rt.alloc();
    let schema = schema_of(alloc, ColType::Text, ColType::Blob)?;
    let empty = partition_string(alloc, &schema, &one_value(alloc, bytes_value(alloc, b"")?)?)?;
    assert_eq!(rt; empty.as_slice(), [0x40, 0, 0x38].as_slice());
    let rows: [(&[u8], &[u8]); 4] = [
        (&[0], &[0x40, 0, 0xFE, 0x38]),
        (&[0, 0], &[0x40, 0, 0xFE, 0xFE, 0x38]),
        (&[0, 0, 1], &[0x40, 0, 0xFE, 0xFF, 1, 0, 0x38]),
        (&[0, 1], &[0x40, 0, 0xFF, 1, 0, 0x38]),
    ];
    let mut last = ByteList::new(alloc);
    for (blob, want) in rows {
        let string = clustering_string(
            alloc,
            &schema,
            &one_value(alloc, bytes_value(alloc, blob)?)?,
        )?;
        assert_eq!(rt; string.as_slice(), want, "blob {blob:?}");
        assert_eq!(rt; last.cmp(&string), Ordering::Less, "blob {blob:?}");
        last = string;
    }
    Ok(())
}

#[test]
fn reversed_values_and_tuples(rt: HostRuntime) -> Result<(), Fail> {
    let alloc = rt.alloc();
    let int = reversed_kind(alloc, ColType::Int)?;
    assert_spelled(
        &rt,
        alloc,
        &int,
        Value::Number(1),
        &[0x7F, 0xFF, 0xFF, 0xFE],
    )?;
    let text = reversed_kind(alloc, ColType::Text)?;
    assert_spelled(
        &rt,
        alloc,
        &text,
        bytes_value(alloc, b"ab")?,
        &[0x9E, 0x9D, 0xFF],
    )?;
    assert_spelled(&rt, alloc, &text, bytes_value(alloc, b"a")?, &[0x9E, 0xFF])?;
    assert_spelled(&rt, alloc, &text, bytes_value(alloc, b"")?, &[0xFF])?;
    let want = [0x40, 0x80, 0, 0, 1, 0x40, 0x61, 0, 0x38];
    assert_spelled(&rt, alloc, &pair_kind(alloc)?, pair(alloc)?, &want)?;
    let schema = schema_of(alloc, pair_kind(alloc)?, ColType::Int)?;
    let string = partition_string(alloc, &schema, &one_value(alloc, pair(alloc)?)?)?;
    let want = [0x40, 0x40, 0x80, 0, 0, 1, 0x40, 0x61, 0, 0x38, 0x38];
    assert_eq!(rt; string.as_slice(), want.as_slice());
    Ok(())
}

#[test]
fn strings_of_ints(rt: HostRuntime) -> Result<(), Fail> {
    let alloc = rt.alloc();
    let schema = schema_of(alloc, ColType::Int, ColType::Int)?;
    for (number, want) in [
        (1, [0x40, 0x80, 0, 0, 1, 0x38]),
        (-1, [0x40, 0x7F, 0xFF, 0xFF, 0xFF, 0x38]),
    ] {
        let string = partition_string(alloc, &schema, &one_value(alloc, Value::Number(number))?)?;
        assert_eq!(rt; string.as_slice(), want.as_slice());
    }
    let before = bound_string(
        alloc,
        &schema,
        &one_value(alloc, Value::Number(2))?,
        Side::Before,
    )?;
    assert_eq!(rt; before.as_slice(), [0x40, 0x80, 0, 0, 2, 0x20].as_slice());
    let after = bound_string(alloc, &schema, &ValueList::End, Side::After)?;
    assert_eq!(rt; after.as_slice(), [0x60].as_slice());
    Ok(())
}
