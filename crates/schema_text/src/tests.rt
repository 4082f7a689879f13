//! Vectors of texts of schemas, and of their refusals.
use super::*;
use key_types::ByteList;
use std::alloc::Global;
use std::process::Abort;
use std::test::Fail;

fn assert_refused(rt: &impl Abort, alloc: Global, text: &[u8], want: SchemaError) {
    assert_eq!(rt; read_schema(alloc, text).err(), Some(want));
}

/// Asserts that the text is read, and that its canonical text is this one.
fn assert_canonical(rt: &impl Abort, alloc: Global, text: &[u8], want: &[u8]) -> Result<(), Fail> {
    let schema = read_schema(alloc, text)?;
    let mut out = ByteList::new(alloc);
    write_schema(&schema, &mut out)?;
    assert_eq!(rt; out.as_slice(), want);
    Ok(())
}

#[test]
fn refusals(rt: HostRuntime) -> Result<(), Fail> {
    let alloc = rt.alloc();
    assert_refused(&rt, alloc, b"(int; ; float)", SchemaError::BadText(8));
    assert_refused(&rt, alloc, b"(int; ; text", SchemaError::BadText(12));
    assert_refused(&rt, alloc, b"(in;", SchemaError::BadText(3));
    assert_refused(
        &rt,
        alloc,
        b"(intreversed; ; text)",
        SchemaError::BadText(4),
    );
    assert_refused(
        &rt,
        alloc,
        b"(int reversed reversed; ; text)",
        SchemaError::BadText(14),
    );
    assert_refused(
        &rt,
        alloc,
        b"(int, int, int, int, int, int, int, int, int; ; text)",
        SchemaError::TooMany,
    );
    assert_refused(
        &rt,
        alloc,
        b"(tuple<tuple<tuple<tuple<tuple<int>>>>>; ; text)",
        SchemaError::TooDeep,
    );
    Ok(())
}

#[test]
fn canonical_texts(rt: HostRuntime) -> Result<(), Fail> {
    let alloc = rt.alloc();
    assert_canonical(&rt, alloc, b"(  int;;text )", b"(int; ; text)")?;
    assert_canonical(
        &rt,
        alloc,
        b" ( text,int ;bigint   reversed;text)",
        b"(text, int; bigint reversed; text)",
    )?;
    assert_canonical(
        &rt,
        alloc,
        b"(tuple <tinyint,smallint>reversed, boolean; blob; blob; text)",
        b"(tuple<tinyint, smallint> reversed, boolean; blob; blob; text)",
    )?;
    Ok(())
}

#[test]
fn canonical_texts_are_read(rt: HostRuntime) -> Result<(), Fail> {
    let alloc = rt.alloc();
    let read = read_canonical(alloc, b"(int; ; text)")?;
    assert!(rt; read.is_some());
    let other = read_canonical(alloc, b"(int;; text)")?;
    assert!(rt; other.is_none());
    Ok(())
}
