//! Scripts on one shard: the answers that are printed, and a shard that is full.
use super::*;
use key_types::{ByteList, NoMemory};
use outside::{MemSink, OpenGate};
use schema_text::read_schema;
use script_text::read_script;
use shard_table::KeyList;
use std::alloc::Global;
use std::process::Abort;
use std::test::Fail;
use std::thread::Threads;

/// The script prints this on a shard of 1,024 cells, and ends so; filled by its writer alone, the shard ends alike.
fn check_run<R: Threads + Sync + Abort>(
    rt: &R,
    alloc: Global,
    text: &[u8],
    printed: &[u8],
    error: Option<RunError>,
) -> Result<(), Fail> {
    let schema = read_schema(alloc, b"(int; ; text)")?;
    let script = read_script(alloc, &schema, 2, text)?;
    let batches = script.batches.as_slice();
    let mut out = MemSink::new(alloc, Vec::new(alloc));
    let bounds = KeyList::new(alloc);
    let ran = run_script(
        rt, alloc, &schema, batches, bounds, 1024, 2, &OpenGate, &mut out,
    );
    assert_eq!(rt; out.written(), printed);
    assert_eq!(rt; ran.err(), error);
    assert_eq!(rt; fill_shard(alloc, batches, 1024).err(), error);
    Ok(())
}

/// So many puts of one key, each with a value of 1,000 bytes.
fn long_puts(alloc: Global, count: u32) -> Result<ByteList, NoMemory> {
    let mut text = ByteList::new(alloc);
    for _ in 0..count {
        text.extend(b"put (1) () = '")?;
        text.extend(&[b'x'; 1000])?;
        text.extend(b"'\n")?;
    }
    Ok(text)
}

#[test]
fn scripts_on_one_shard(rt: HostRuntime) -> Result<(), Fail> {
    let alloc = rt.alloc();
    let rows: [(&[u8], &[u8]); 4] = [
        (b"put (1) () = 'a'\nsync\nget (1) ()\n", b"'a' @1\n"),
        (
            b"put (1) () = 'a'\nput (20) () = 'b'\nsync\nget (20) ()\nget (1) ()",
            b"'b' @2\n'a' @2\n",
        ),
        (
            b"get (1) ()\nsync\nput (1) () = 'a'\nput (1) () = 'c'\nsync\nget (1) ()\nget (2) ()",
            b"none @0\n'c' @2\nnone @2\n",
        ),
        (b"", b""),
    ];
    for (text, printed) in rows {
        check_run(&rt, alloc, text, printed, None)?;
    }
    let text = long_puts(alloc, 40)?;
    check_run(&rt, alloc, text.as_slice(), b"", Some(RunError::Full(32)))?;
    Ok(())
}
