//! A run of the program in which one call of what stands outside fails, and what it leaves. `main` makes one for each
//! call.
use crate::trial_error::TrialError;
use outside::{Fail, FileId, MemSink, MemSource, MemStore, OpenGate, Part};
use std::alloc::Global;
use std::thread::Threads;
use table_tool::run;

/// A pull gives so many bytes at most.
const PIECE: usize = 8_192;

const PARTS: [Part; 4] = [Part::Data, Part::Rows, Part::Partitions, Part::Schema];

/// A command: its words, and the bytes of its script.
#[derive(Clone, Copy)]
pub struct Command<'c> {
    pub words: &'c [String],
    pub script: &'c [u8],
}

/// Which call fails: a pull, a push or a call of the store, counted from 1, and how many bytes it keeps, where it
/// keeps any.
#[derive(Clone, Copy, PartialEq, Eq)]
pub enum Failing {
    Nothing,
    Source(u64),
    Sink(Fail),
    Store(Fail),
}

/// The bytes of the four files, each there or not, in the order in which they become whole.
#[derive(Drop)]
pub struct Files {
    pub bytes: Vec<Option<Vec<u8>>>,
}

/// What a run leaves: its status, what was written, and the files.
#[derive(Drop)]
pub struct Left {
    pub status: u8,
    pub text: Vec<u8>,
    pub files: Files,
}

fn file_of(part: Part) -> FileId {
    FileId {
        generation: 1,
        part,
    }
}

fn files_of(alloc: Global, store: &MemStore) -> Result<Files, TrialError> {
    let mut bytes = Vec::new(alloc);
    for part in PARTS {
        let file = match store.contents(file_of(part)) {
            Some(file) => Some(file.to_vec(alloc)?),
            None => None,
        };
        bytes.push(file)?;
    }
    Ok(Files { bytes })
}

/// A store with these files, in which these calls fail.
fn store_of(alloc: Global, files: &Files, fails: Vec<Fail>) -> Result<MemStore, TrialError> {
    let mut store = MemStore::new(alloc, fails);
    let mut parts = PARTS.iter();
    for file in files.bytes.as_slice() {
        if let (Some(part), Some(bytes)) = (parts.next(), file) {
            store.put_file(file_of(*part), bytes.as_slice().to_vec(alloc)?)?;
        }
    }
    Ok(store)
}

/// No files at all.
pub fn no_files(alloc: Global) -> Files {
    Files {
        bytes: Vec::new(alloc),
    }
}

/// Runs a command over files, while one call fails.
pub fn run_failing<R: Threads + Sync>(
    rt: &R,
    alloc: Global,
    command: Command<'_>,
    files: &Files,
    failing: Failing,
) -> Result<Left, TrialError> {
    let mut pulls = Vec::new(alloc);
    let mut pushes = Vec::new(alloc);
    let mut calls = Vec::new(alloc);
    match failing {
        Failing::Nothing => {}
        Failing::Source(call) => pulls.push(call)?,
        Failing::Sink(fail) => pushes.push(fail)?,
        Failing::Store(fail) => calls.push(fail)?,
    }
    let mut source = MemSource::new(command.script.to_vec(alloc)?, PIECE, pulls);
    let mut sink = MemSink::new(alloc, pushes);
    let mut store = store_of(alloc, files, calls)?;
    let status = run(
        rt,
        alloc,
        command.words,
        &mut source,
        &mut sink,
        &mut store,
        &OpenGate,
    );
    Ok(Left {
        status: status.number(),
        text: sink.written().to_vec(alloc)?,
        files: files_of(alloc, &store)?,
    })
}
