//! Vectors of literals, and of their refusals.
ghost use Rattle.std.specs.Prelude.{◌≡◌, IfOk};
ghost use Rattle.key_types.specs.Kinds.{kind_of, kinds_of, values_of, EachFits, more, end, int};

use super::*;
use key_types::{ByteList, ColType, TypeList, ValueList, ValueType, is_text};
use std::alloc::Global;
use std::process::Abort;
use std::test::Fail;

/// The list of one type.
fn one(alloc: Global, kind: ColType) -> Result<TypeList, Fail>
    ensures { IfOk result (λ kinds. kinds_of kinds ≡ more (kind_of kind) end) }
{
    Ok(TypeList::More(Box::new(alloc, kind)?, Box::new(alloc, TypeList::End)?))
}

/// The components of a text, which has to be UTF-8.
fn components(alloc: Global, kinds: &TypeList, text: &[u8]) -> Result<ValueList, LiteralError>
    ensures { IfOk result (λ values. EachFits (kinds_of kinds.now) (values_of values)) }
{
    if is_text(text) {
        read_list(alloc, kinds, text)
    } else {
        Err(LiteralError::BadToken(0))
    }
}

fn assert_refused(
    rt: &impl Abort,
    alloc: Global,
    kinds: &TypeList,
    text: &[u8],
    want: LiteralError,
) {
    assert_eq!(rt; components(alloc, kinds, text).err(), Some(want));
}

/// Asserts that the text is read, and that what was read is written so.
fn assert_written(
    rt: &impl Abort,
    alloc: Global,
    kinds: &TypeList,
    text: &[u8],
    want: &[u8],
) -> Result<(), Fail> {
    let values = components(alloc, kinds, text)?;
    let mut out = ByteList::new(alloc);
    write_list(kinds, &values, &mut out)?;
    assert_eq!(rt; out.as_slice(), want);
    Ok(())
}

#[test]
fn numbers(rt: HostRuntime) -> Result<(), Fail> {
    let alloc = rt.alloc();
    let ints = one(alloc, ColType::Int)?;
    assert_refused(&rt, alloc, &ints, b"(x)", LiteralError::BadToken(1));
    assert_refused(
        &rt,
        alloc,
        &ints,
        b"(2147483648)",
        LiteralError::OutOfRange(1),
    );
    assert_refused(&rt, alloc, &ints, b"(1, 2)", LiteralError::BadToken(2));
    assert_refused(&rt, alloc, &ints, b"(01)", LiteralError::BadToken(2));
    assert_refused(&rt, alloc, &ints, b"(-0)", LiteralError::BadToken(2));
    assert_refused(
        &rt,
        alloc,
        &ints,
        b"(99999999999999999999",
        LiteralError::BadToken(21),
    );
    assert_written(&rt, alloc, &ints, b" ( -2147483648 ) ", b"(-2147483648)")?;
    let longs = one(alloc, ColType::BigInt)?;
    assert_refused(
        &rt,
        alloc,
        &longs,
        b"(99999999999999999999)",
        LiteralError::OutOfRange(1),
    );
    assert_written(
        &rt,
        alloc,
        &longs,
        b"(-9223372036854775808)",
        b"(-9223372036854775808)",
    )?;
    Ok(())
}

#[test]
fn texts_blobs_and_booleans(rt: HostRuntime) -> Result<(), Fail> {
    let alloc = rt.alloc();
    let texts = one(alloc, ColType::Text)?;
    assert_written(&rt, alloc, &texts, b"('it''s')", b"('it''s')")?;
    assert_refused(&rt, alloc, &texts, b"('a)", LiteralError::BadToken(4));
    let blobs = one(alloc, ColType::Blob)?;
    assert_written(&rt, alloc, &blobs, b"(0xAb0F)", b"(0xab0f)")?;
    assert_refused(&rt, alloc, &blobs, b"(0x1)", LiteralError::BadToken(4));
    let truths = one(alloc, ColType::Boolean)?;
    assert_written(&rt, alloc, &truths, b"(false )", b"(false)")?;
    assert_refused(&rt, alloc, &truths, b"(trues)", LiteralError::BadToken(5));
    Ok(())
}

#[test]
fn tuples(rt: HostRuntime) -> Result<(), Fail> {
    let alloc = rt.alloc();
    let pair = TypeList::More(
        Box::new(alloc, ColType::TinyInt)?,
        Box::new(alloc, one(alloc, ColType::Text)?)?,
    );
    let kinds = one(alloc, ColType::Tuple(pair))?;
    assert_written(&rt, alloc, &kinds, b"((1,'a'))", b"((1, 'a'))")?;
    assert_refused(
        &rt,
        alloc,
        &kinds,
        b"(( 128, 'a'))",
        LiteralError::OutOfRange(3),
    );
    assert_refused(&rt, alloc, &kinds, b"((128, a))", LiteralError::BadToken(7));
    Ok(())
}

#[test]
fn values_of_rows(rt: HostRuntime) -> Result<(), Fail> {
    let alloc = rt.alloc();
    let mut out = ByteList::new(alloc);
    write_equals(ValueType::Text, b"it's", &mut out)?;
    write_bytes(ValueType::Blob, b"a", &mut out)?;
    assert_eq!(rt; out.as_slice(), b" = 'it''s'0x61".as_slice());
    Ok(())
}

#[test]
fn values(rt: HostRuntime) -> Result<(), Fail> {
    let alloc = rt.alloc();
    let text: &[u8] = b" 0x00ff ";
    if is_text(text) {
        let value = read_value(alloc, &ColType::Blob, text)?;
        let mut out = ByteList::new(alloc);
        write_value(&ColType::Blob, &value, &mut out)?;
        assert_eq!(rt; out.as_slice(), b"0x00ff".as_slice());
    } else {
        assert!(rt; false);
    }
    Ok(())
}
