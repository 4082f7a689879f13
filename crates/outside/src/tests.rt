//! Vectors of the objects in memory, of the adapters and of a real folder.
use super::*;
use std::test::Fail as TestFail;

const DATA: FileId = FileId {
    generation: 1,
    part: Part::Data,
};

const SCHEMA: FileId = FileId {
    generation: 1,
    part: Part::Schema,
};

/// Three pulls: how many bytes each gave, 9 for a failure, and the last byte that came.
fn pulled<S: Source>(source: &mut S) -> ([usize; 3], u8) {
    let mut counts = [0usize; 3];
    let mut last = 0;
    for count in counts.iter_mut() {
        let mut into = [0u8; 4];
        *count = source.pull(&mut into).unwrap_or(9);
        if let Some(byte) = into.into_iter().filter(|byte| *byte != 0).last() {
            last = byte;
        }
    }
    (counts, last)
}

#[test]
fn a_source_gives_pieces_and_fails_where_it_is_told(rt: HostRuntime) -> Result<(), TestFail> {
    let alloc = rt.alloc();
    let mut source = MemSource::new(b"abc".to_vec(alloc)?, 2, vec![in alloc; 2]?);
    assert_eq!(rt; pulled(&mut source), ([2, 9, 1], b'c'));
    let mut reader = ReaderSource::new(b"abc".as_slice());
    assert_eq!(rt; pulled(&mut reader), ([3, 0, 0], b'c'));
    let mut quiet = QuietSource::new(b"abcdef".to_vec(alloc)?);
    assert_eq!(rt; pulled(&mut quiet), ([4, 2, 0], b'f'));
    Ok(())
}

/// Which of four pushes answered Ok.
fn pushed<O: Sink>(out: &mut O) -> [bool; 4] {
    [
        out.push(b"ab").is_ok(),
        out.push(b"").is_ok(),
        out.push(b"cdef").is_ok(),
        out.push(b"g").is_ok(),
    ]
}

#[test]
fn a_sink_keeps_what_it_is_told(rt: HostRuntime) -> Result<(), TestFail> {
    let alloc = rt.alloc();
    let fails = vec![in alloc; Fail { call: 2, keep: 3 }, Fail { call: 2, keep: 0 }]?;
    let mut sink = MemSink::new(alloc, fails);
    assert_eq!(rt; pushed(&mut sink), [true, true, false, true]);
    assert_eq!(rt; sink.written(), b"abcdeg".as_slice());
    let mut writer = WriterSink::new(Vec::new(alloc));
    assert_eq!(rt; pushed(&mut writer), [true; 4]);
    assert_eq!(rt; pushed(&mut NullSink::new()), [true; 4]);
    Ok(())
}

/// Appends, sizes and reads: the sizes of the data file and of the schema, and the three bytes from 2 on.
fn kept<K: Store>(
    store: &mut K,
) -> (
    Result<Option<u64>, Failed>,
    Result<Option<u64>, Failed>,
    [u8; 4],
) {
    let mut into = [0u8; 4];
    let _ = store.append(DATA, b"abc");
    let _ = store.append(DATA, b"def");
    let size = store.size(DATA);
    let _ = store.read(DATA, 2, &mut into);
    (size, store.size(SCHEMA), into)
}

#[test]
fn a_store_keeps_what_it_is_told(rt: HostRuntime) -> Result<(), TestFail> {
    let alloc = rt.alloc();
    let mut store = MemStore::new(alloc, vec![in alloc; Fail { call: 2, keep: 2 }]?);
    assert_eq!(rt; kept(&mut store), (Ok(Some(5)), Ok(None), *b"cde\0"));
    assert_eq!(rt; store.contents(DATA), Some(b"abcde".as_slice()));
    assert_eq!(rt; store.put_file(SCHEMA, b"s".to_vec(alloc)?), Ok(()));
    assert_eq!(rt; store.contents(SCHEMA), Some(b"s".as_slice()));
    Ok(())
}

#[test]
fn a_folder_keeps_files(rt: HostRuntime) {
    let mut store = FolderStore::new(&rt);
    assert_eq!(rt; store.size(DATA), Ok(None));
    assert_eq!(rt; kept(&mut store), (Ok(Some(6)), Ok(None), *b"cdef"));
    let text = std::fs::read_to_string(&rt, "1-Data.db");
    let _ = std::fs::remove_file(&rt, "1-Data.db");
    assert!(rt; text.is_ok_and(|text| text.as_str() == "abcdef"));
}
