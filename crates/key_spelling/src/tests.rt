//! Vectors of lists and their strings.
use super::*;
use key_types::{ByteList, ColType, TypeList};
use std::alloc::Global;
use std::process::Abort;
use std::test::Fail;

/// A text and a reversed int.
fn kinds(alloc: Global) -> Result<TypeList, Fail> {
    let reversed = ColType::Reversed(Box::new(alloc, ColType::Int)?);
    let last = TypeList::More(Box::new(alloc, reversed)?, Box::new(alloc, TypeList::End)?);
    Ok(TypeList::More(Box::new(alloc, ColType::Text)?, Box::new(alloc, last)?))
}

/// Asserts that the list is spelled so behind a byte, that two bytes are left behind it, and where a number is marked.
fn assert_spelled(
    rt: &impl Abort,
    alloc: Global,
    text: &[u8],
    string: &[u8],
    mark: Option<usize>,
) -> Result<(), Fail> {
    let mut out = ByteList::new(alloc);
    out.push(7)?;
    let mut out_of_range = None;
    let rest = spell_list(alloc, &kinds(alloc)?, &mut out_of_range, text, &mut out)?;
    assert_eq!(rt; rest, b"= ".as_slice());
    assert_eq!(rt; out.as_slice(), string);
    assert_eq!(rt; out_of_range, mark);
    Ok(())
}

#[test]
fn lists(rt: HostRuntime) -> Result<(), Fail> {
    let alloc = rt.alloc();
    let one: &[u8] = &[7, 0x40, b'a', 0, 0x40, 0x7F, 0xFF, 0xFF, 0xFE, 0x38];
    assert_spelled(&rt, alloc, b"( 'a' ,1 ) = ", one, None)?;
    let quote: &[u8] = &[7, 0x40, b'a', b'\'', 0, 0x40, 0x7F, 0xFF, 0xFF, 0xFF, 0x38];
    assert_spelled(&rt, alloc, b"('a''', 2147483648)= ", quote, Some(13))
}
