//! Vectors of decoding, of its refusals, and of strings that are parted.
ghost use Rattle.std.specs.Prelude.{◌≡◌, IfOk};
ghost use Rattle.key_types.specs.Kinds.{kind_of, kinds_of, more, end, int, big, text, blob, boolean, tuple, reversed};

use super::*;
use byte_comparable::{clustering_string, partition_string};
use key_types::{ByteList, ColType, Schema, TypeList, Value, ValueType};
use std::alloc::Global;
use std::process::Abort;
use std::test::Fail;

fn one_int(alloc: Global) -> Result<TypeList, Fail>
    ensures { IfOk result (λ kinds. kinds_of kinds ≡ more int end) }
{
    Ok(TypeList::More(
        Box::new(alloc, ColType::Int)?,
        Box::new(alloc, TypeList::End)?,
    ))
}

fn assert_refused(rt: &impl Abort, alloc: Global, kind: ColType, bytes: &[u8], want: DecodeError) {
    assert_eq!(rt; decode(alloc, &kind, bytes).err(), Some(want));
}

#[test]
fn refusals_of_bytes(rt: HostRuntime) -> Result<(), Fail> {
    let alloc = rt.alloc();
    assert_refused(
        &rt,
        alloc,
        ColType::BigInt,
        &[0xC0, 1],
        DecodeError::BadByte(1),
    );
    assert_refused(&rt, alloc, ColType::Int, &[0], DecodeError::Truncated);
    assert_refused(
        &rt,
        alloc,
        ColType::Int,
        &[0x80, 0, 0, 1, 0x38],
        DecodeError::BadByte(4),
    );
    assert_refused(&rt, alloc, ColType::Text, &[0xFF, 0], DecodeError::BadUtf8);
    assert_refused(
        &rt,
        alloc,
        ColType::Text,
        &[0, 0xFF, 0],
        DecodeError::BadByte(2),
    );
    assert_refused(
        &rt,
        alloc,
        ColType::Blob,
        &[0, 0xFF],
        DecodeError::Truncated,
    );
    assert_refused(&rt, alloc, ColType::Boolean, &[2], DecodeError::BadByte(0));
    Ok(())
}

#[test]
fn values_of_bytes(rt: HostRuntime) -> Result<(), Fail> {
    let alloc = rt.alloc();
    match decode(alloc, &ColType::Int, &[0x80, 0, 0, 1])? {
        Value::Number(number) => assert_eq!(rt; number, 1),
        _ => assert!(rt; false),
    }
    let schema = Schema {
        partition: one_int(alloc)?,
        clustering: one_int(alloc)?,
        value: ValueType::Text,
        static_value: None,
    };
    let bytes = [0x40, 0x7F, 0xFF, 0xFF, 0xFF, 0x38];
    let partition = decode_partition(alloc, &schema, &bytes)?;
    assert_eq!(rt;
        partition_string(alloc, &schema, &partition)?.as_slice(),
        bytes.as_slice()
    );
    let clustering = decode_clustering(alloc, &schema, &bytes)?;
    assert_eq!(rt;
        clustering_string(alloc, &schema, &clustering)?.as_slice(),
        bytes.as_slice()
    );
    Ok(())
}

/// A row with a value of each type: 1, 'a', the blob 00, true, the tuple of 1, 'b' reversed; 1, 1, 1.
const EACH_TYPE: [u8; 32] = [
    0x40, 0x81, 0x40, 0x61, 0x00, 0x40, 0x00, 0xFE, 0x40, 0x01, 0x40, 0x40, 0x80, 0x00, 0x00, 0x01,
    0x38, 0x40, 0x9D, 0xFF, 0x38, 0x40, 0x81, 0x40, 0x80, 0x01, 0x40, 0x80, 0x00, 0x00, 0x01, 0x38,
];

/// How many of these bytes are the string of the partition.
const PARTITION: usize = 21;

fn more(alloc: Global, kind: ColType, kinds: TypeList) -> Result<TypeList, Fail>
    ensures { IfOk result (λ all. kinds_of all ≡ more (kind_of kind) (kinds_of kinds)) }
{
    Ok(TypeList::More(Box::new(alloc, kind)?, Box::new(alloc, kinds)?))
}

fn partition_types(alloc: Global) -> Result<TypeList, Fail>
    ensures { IfOk result (λ all. kinds_of all ≡ more big (more text (more blob (more boolean (more (tuple (more int end)) (more (reversed text) end)))))) }
{
    let text = Box::new(alloc, ColType::Text)?;
    let kinds = more(alloc, ColType::Reversed(text), TypeList::End)?;
    let kinds = more(alloc, ColType::Tuple(one_int(alloc)?), kinds)?;
    let kinds = more(alloc, ColType::Boolean, kinds)?;
    let kinds = more(alloc, ColType::Blob, kinds)?;
    let kinds = more(alloc, ColType::Text, kinds)?;
    more(alloc, ColType::BigInt, kinds)
}

fn each_type(alloc: Global) -> Result<Schema, Fail> {
    let kinds = more(alloc, ColType::SmallInt, one_int(alloc)?)?;
    Ok(Schema {
        partition: partition_types(alloc)?,
        clustering: more(alloc, ColType::TinyInt, kinds)?,
        value: ValueType::Blob,
        static_value: None,
    })
}

/// Where a row parts that has this partition's string and these bytes behind it; 0 where it is no such string.
fn split_before(
    alloc: Global,
    schema: &Schema,
    string: &[u8],
    behind: &[u8],
) -> Result<usize, Fail> {
    let mut row = ByteList::new(alloc);
    row.extend(string)?;
    row.extend(behind)?;
    if is_partition_string(schema, string) {
        Ok(split_row(schema, row.as_slice()))
    } else {
        Ok(0)
    }
}

#[test]
fn strings_of_each_type(rt: HostRuntime) -> Result<(), Fail> {
    let alloc = rt.alloc();
    let schema = each_type(alloc)?;
    let (string, behind) = EACH_TYPE.as_slice().split_at(PARTITION);
    assert_eq!(rt; split_before(alloc, &schema, string, behind)?, PARTITION);
    assert!(rt; is_clustering_string(&schema, behind));
    assert!(rt; !is_partition_string(&schema, behind));
    assert!(rt; !is_partition_string(&schema, &string[..PARTITION - 1]));
    assert!(rt; !is_partition_string(&schema, EACH_TYPE.as_slice()));
    let mut bad = EACH_TYPE;
    bad[3] = 0xFF;
    assert!(rt; !is_partition_string(&schema, &bad[..PARTITION]));
    Ok(())
}
