//! Each top call, and a row for each status that needs no fault.
use crate::request::says_load;
use crate::{Status, run, run_load, run_query};
use outside::{MemSink, MemSource, MemStore, OpenGate};
use std::alloc::{AllocError, Global};
use std::test::Fail;
use std::thread::Threads;

fn words(alloc: Global, texts: &[&str]) -> Result<Vec<String>, AllocError> {
    let mut all = Vec::new(alloc);
    for text in texts {
        all.push(String::from_str(alloc, text)?)?;
    }
    Ok(all)
}

/// The status of the call that the words are for, or of `run`.
fn done<R: Threads + Sync>(
    rt: &R,
    alloc: Global,
    apart: bool,
    words: &[String],
    source: &mut MemSource,
    out: &mut MemSink,
    store: &mut MemStore,
) -> Status {
    if !apart {
        return run(rt, alloc, words, source, out, store, &OpenGate);
    }
    match says_load(alloc, words) {
        Ok(true) => run_load(rt, alloc, words, source, out, store, &OpenGate),
        Ok(false) => run_query(alloc, words, source, out, store),
        Err(_) => Status::NoMemory,
    }
}

#[test]
fn each_call_ends_with_its_status(rt: HostRuntime) -> Result<(), Fail> {
    let alloc = rt.alloc();
    let schema = "(int; ; text)";
    for apart in [false, true] {
        let mut store = MemStore::new(alloc, Vec::new(alloc));
        for (texts, script, number, text) in [
            (["list"].as_slice(), b"".as_slice(), 1, "error: usage\n"),
            (&["scan"], b"", 8, "error: unfinished\n"),
            (
                &["list", "--schema", schema],
                b"put (1) () = 'a'\nput (1) () = 'b'",
                0,
                "(1) () = 'b'\nrows 1\n",
            ),
            (
                &["load", "--schema", schema],
                b"put (x) () = 'a'",
                2,
                "error: line 1: bad text at 5\n",
            ),
            (
                &["load", "--schema", schema],
                b"put (2) () = 'a'\nput (1) () = 'b'",
                0,
                "ok puts 2 rows 2 partitions 2\n",
            ),
            (&["load", "--schema", schema], b"put", 9, "error: exists\n"),
            (&["scan"], b"", 0, "(1) () = 'b'\n(2) () = 'a'\nrows 2\n"),
            (&["scan", "--to=(1)"], b"", 0, "(1) () = 'b'\nrows 1\n"),
            (&["get", "(2) ()"], b"", 0, "'a'\n"),
            (
                &["gen", "--seed=1", "--count=1", "--print"],
                b"",
                0,
                "put ('u0', 0) (0) = '6c576fac43fd007c'\n",
            ),
            (&["gen", "--seed=1", "--count=1"], b"", 9, "error: exists\n"),
            (
                &["key", "--schema", schema, "--decode", "00"],
                b"",
                1,
                "error: key\n",
            ),
        ] {
            let words = words(alloc, texts)?;
            let mut source = MemSource::new(script.to_vec(alloc)?, 5, Vec::new(alloc));
            let mut out = MemSink::new(alloc, Vec::new(alloc));
            let status = done(&rt, alloc, apart, &words, &mut source, &mut out, &mut store);
            assert_eq!(rt; status.number(), number, "{text}");
            assert_eq!(rt; out.written(), text.as_bytes(), "{text}");
        }
    }
    Ok(())
}
