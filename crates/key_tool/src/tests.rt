//! Vectors of both ways.
ghost use Rattle.std.specs.Prelude.{◌≡◌, IfOk};
ghost use Rattle.key_types.specs.Kinds.{kind_of, kinds_of, more, end};

use super::*;
use key_types::{ColType, Schema, TypeList, ValueType};
use std::alloc::Global;
use std::process::Abort;
use std::test::Fail;

/// The list of one type.
fn one(alloc: Global, kind: ColType) -> Result<TypeList, Fail>
    ensures { IfOk result (λ kinds. kinds_of kinds ≡ more (kind_of kind) end) }
{
    Ok(TypeList::More(Box::new(alloc, kind)?, Box::new(alloc, TypeList::End)?))
}

/// One text within a partition of one int.
fn int_and_text(alloc: Global) -> Result<Schema, Fail> {
    Ok(Schema {
        partition: one(alloc, ColType::Int)?,
        clustering: one(alloc, ColType::Text)?,
        value: ValueType::Blob,
        static_value: None,
    })
}

/// A part, a way, a text, and the line that is shown of it; no line where it is refused.
type Row<'a> = (KeyPart, KeyWay, &'a str, Option<&'a [u8]>);

fn assert_shown(rt: &impl Abort, alloc: Global, schema: &Schema, row: Row) {
    let (part, way, text, want) = row;
    let shown = show_key(alloc, schema, part, way, text);
    match want {
        Some(line) => match shown {
            Ok(shown) => assert_eq!(rt; shown.as_slice(), line),
            Err(fault) => assert_eq!(rt; Err(fault), Ok(())),
        },
        None => assert_eq!(rt; shown.err(), Some(KeyFault::Refused)),
    }
}

#[test]
fn lists_and_strings(rt: HostRuntime) -> Result<(), Fail> {
    let alloc = rt.alloc();
    let schema = int_and_text(alloc)?;
    let rows: [Row; 8] = [
        (
            KeyPart::Partition,
            KeyWay::Encode,
            "(1)",
            Some(b"408000000138\n"),
        ),
        (
            KeyPart::Partition,
            KeyWay::Encode,
            " ( -1 ) ",
            Some(b"407fffffff38\n"),
        ),
        (
            KeyPart::Partition,
            KeyWay::Decode,
            "408000000138",
            Some(b"(1)\n"),
        ),
        (
            KeyPart::Partition,
            KeyWay::Decode,
            "407FffFFfF38",
            Some(b"(-1)\n"),
        ),
        (
            KeyPart::Clustering,
            KeyWay::Encode,
            "('a')",
            Some(b"40610038\n"),
        ),
        (
            KeyPart::Clustering,
            KeyWay::Decode,
            "40610038",
            Some(b"('a')\n"),
        ),
        (
            KeyPart::Clustering,
            KeyWay::Encode,
            "('J')",
            Some(b"404a0038\n"),
        ),
        (
            KeyPart::Clustering,
            KeyWay::Decode,
            "404A0038",
            Some(b"('J')\n"),
        ),
    ];
    for row in rows {
        assert_shown(&rt, alloc, &schema, row);
    }
    Ok(())
}

#[test]
fn refusals(rt: HostRuntime) -> Result<(), Fail> {
    let alloc = rt.alloc();
    let schema = int_and_text(alloc)?;
    let rows: [Row; 12] = [
        (KeyPart::Partition, KeyWay::Encode, "", None),
        (KeyPart::Partition, KeyWay::Encode, "1", None),
        (KeyPart::Partition, KeyWay::Encode, "(1, 2)", None),
        (KeyPart::Partition, KeyWay::Encode, "(2147483648)", None),
        (KeyPart::Partition, KeyWay::Encode, "('a')", None),
        (KeyPart::Partition, KeyWay::Decode, "4080000001", None),
        (KeyPart::Partition, KeyWay::Decode, "40800000013", None),
        (KeyPart::Partition, KeyWay::Decode, "40800000013g", None),
        (KeyPart::Partition, KeyWay::Decode, "0x408000000138", None),
        (KeyPart::Partition, KeyWay::Decode, "40800000013838", None),
        (KeyPart::Partition, KeyWay::Decode, "40610038", None),
        (KeyPart::Clustering, KeyWay::Decode, "40ff0038", None),
    ];
    for row in rows {
        assert_shown(&rt, alloc, &schema, row);
    }
    Ok(())
}

/// The list of a text of so many letters.
fn letters_list(alloc: Global, count: usize) -> Result<String, Fail> {
    let mut list = String::from_str(alloc, "('")?;
    for _ in 0..count {
        list.push_str("a")?;
    }
    list.push_str("')")?;
    Ok(list)
}

/// The string of a text of so many letters, in hexadecimal: three bytes stand around them.
fn letters_string(alloc: Global, count: usize) -> Result<String, Fail> {
    let mut string = String::from_str(alloc, "40")?;
    for _ in 0..count {
        string.push_str("61")?;
    }
    string.push_str("0038")?;
    Ok(string)
}

#[test]
fn lengths(rt: HostRuntime) -> Result<(), Fail> {
    let alloc = rt.alloc();
    let schema = int_and_text(alloc)?;
    let part = KeyPart::Clustering;
    let list = letters_list(alloc, 1021)?;
    let mut string = letters_string(alloc, 1021)?;
    string.push_str("\n")?;
    let shown = show_key(alloc, &schema, part, KeyWay::Encode, list.as_str())?;
    assert_eq!(rt; shown.as_slice(), string.as_bytes());
    let mut list = letters_list(alloc, 1022)?;
    let long = show_key(alloc, &schema, part, KeyWay::Encode, list.as_str());
    assert_eq!(rt; long.err(), Some(KeyFault::Refused));
    let string = letters_string(alloc, 1022)?;
    let shown = show_key(alloc, &schema, part, KeyWay::Decode, string.as_str())?;
    list.push_str("\n")?;
    assert_eq!(rt; shown.as_slice(), list.as_bytes());
    Ok(())
}
