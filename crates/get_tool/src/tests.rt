//! Keys of a table in memory.
use super::*;
use outside::{FileId, MemStore, Part, Store};
use std::alloc::{AllocError, Global};
use std::test::{Fail as TestFail, *};

/// The partition index of the partition 1, whose head stands at the start of the data file.
const PARTITIONS: [u8; 44] = [
    0x01, 0xFF, 0x12, 0x40, 0x00, 0x06, 0x40, 0x80, 0x00, 0x00, 0x01, 0x38, 0x00, 0x06, 0x40, 0x80,
    0x00, 0x00, 0x01, 0x38, 0x00, 0x00, 0x00, 0x00, 0x00, 0x00, 0x00, 0x04, 0x00, 0x00, 0x00, 0x00,
    0x00, 0x00, 0x00, 0x01, 0x00, 0x00, 0x00, 0x00, 0x00, 0x00, 0x00, 0x02,
];

/// That partition, with the static value `s`, and in it the row 2 with `a`.
const DATA: [u8; 25] = [
    0x00, 0x06, 0x40, 0x80, 0x00, 0x00, 0x01, 0x38, 0x01, 0x00, 0x01, 0x73, 0x01, 0x00, 0x06, 0x40,
    0x80, 0x00, 0x00, 0x02, 0x38, 0x00, 0x01, 0x61, 0x00,
];

/// Puts a file of the first generation into a store.
fn put(alloc: Global, store: &mut MemStore, part: Part, bytes: &[u8]) -> Result<(), AllocError> {
    let mut file = Vec::new(alloc);
    file.extend_from_slice(bytes)?;
    let name = FileId {
        generation: 1,
        part,
    };
    let _ = store.put_file(name, file);
    Ok(())
}

/// Whether this is shown of the text.
fn shows<K: Store>(
    alloc: Global,
    store: &mut K,
    text: &[u8],
    want: Result<&[u8], GetError>,
) -> bool {
    match (show_value(alloc, store, 1, text), want) {
        (Ok(line), Ok(want)) => line.as_slice() == want,
        (Err(e), Err(want)) => e == want,
        _ => false,
    }
}

#[test]
fn keys_are_shown(rt: HostRuntime) -> Result<(), TestFail> {
    let alloc = rt.alloc();
    let mut store = MemStore::new(alloc, Vec::new(alloc));
    assert!(rt; shows(alloc, &mut store, b"(1)", Err(GetError::Unfinished)));
    put(
        alloc,
        &mut store,
        Part::Schema,
        b"bti-table 2\n(int; int; text; blob)\nend\n",
    )?;
    put(alloc, &mut store, Part::Partitions, &PARTITIONS)?;
    put(alloc, &mut store, Part::Data, &DATA)?;
    for (text, want) in [
        (b"(1) (2)".as_slice(), Ok(b"'a'\n".as_slice())),
        (b" ( 1 )(2) ", Ok(b"'a'\n")),
        (b"(1) static", Ok(b"0x73\n")),
        (b"(1) (3)", Ok(b"none\n")),
        (b"(2) static", Ok(b"none\n")),
        (b"", Err(GetError::Usage)),
        (b"(1)", Err(GetError::Usage)),
        (b"(1) (2) static", Err(GetError::Usage)),
        (b"(1) (2147483648)", Err(GetError::Usage)),
    ] {
        assert!(rt; shows(alloc, &mut store, text, want), "{text:?}");
    }
    Ok(())
}
