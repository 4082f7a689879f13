//! Vectors of strings and their lists.
ghost use Rattle.std.specs.Prelude.{◌≡◌, IfOk};
ghost use Rattle.key_types.specs.Kinds.{kind_of, kinds_of, more};

use super::*;
use key_decode::is_partition_string;
use key_types::{ByteList, ColType, Schema, TypeList, ValueType};
use std::alloc::Global;
use std::process::Abort;
use std::test::Fail;

/// A type before others.
fn before(alloc: Global, kind: ColType, kinds: TypeList) -> Result<TypeList, Fail>
    ensures { IfOk result (λ list. kinds_of list ≡ more (kind_of kind) (kinds_of kinds)) }
{
    Ok(TypeList::More(Box::new(alloc, kind)?, Box::new(alloc, kinds)?))
}

/// The schema `(int, text reversed, tuple<blob, boolean>; ; text)`.
fn typed(alloc: Global) -> Result<Schema, Fail> {
    let pair = before(alloc, ColType::Boolean, TypeList::End)?;
    let pair = ColType::Tuple(before(alloc, ColType::Blob, pair)?);
    let text = ColType::Reversed(Box::new(alloc, ColType::Text)?);
    let kinds = before(alloc, pair, TypeList::End)?;
    let kinds = before(alloc, text, kinds)?;
    Ok(Schema {
        partition: before(alloc, ColType::Int, kinds)?,
        clustering: TypeList::End,
        value: ValueType::Text,
        static_value: None,
    })
}

fn assert_printed(
    rt: &impl Abort,
    alloc: Global,
    schema: &Schema,
    string: &[u8],
    want: &[u8],
) -> Result<(), Fail> {
    let mut out = ByteList::new(alloc);
    out.push(b'>')?;
    if is_partition_string(schema, string) {
        write_string(alloc, &schema.partition, string, &mut out)?;
    }
    assert_eq!(rt; out.as_slice(), want);
    Ok(())
}

#[test]
fn each_type(rt: HostRuntime) -> Result<(), Fail> {
    let alloc = rt.alloc();
    let schema = typed(alloc)?;
    let zero_within: &[u8] =
        b"\x40\x80\0\0\x07\x40\x96\x8b\xd8\x8c\xff\x40\x40a\0\xffb\0\x40\x01\x38\x38";
    assert_printed(
        &rt,
        alloc,
        &schema,
        zero_within,
        b">(7, 'it''s', (0x610062, true))",
    )?;
    let plain: &[u8] = b"\x40\x7f\xff\xff\xff\x40\xff\x40\x40a\0\x40\0\x38\x38";
    assert_printed(&rt, alloc, &schema, plain, b">(-1, '', (0x61, false))")?;
    Ok(())
}
