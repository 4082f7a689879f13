//! The program: real input, output and store, handed to the top call.
#![tactic(auto)]

use outside::{FolderStore, OpenGate, ReaderSource, WriterSink};
use std::alloc::{AllocError, Global};
use std::env;
use std::io::ErrorKind;
use std::process::ExitCode;
use table_tool::{Status, run};

/// The words behind the program's name. Where one of them isn't UTF-8 there are none, which no command takes.
fn words(rt: &HostRuntime, alloc: Global) -> Result<Vec<String>, AllocError> {
    let mut words = Vec::new(alloc);
    match env::args(rt) {
        Ok(args) => {
            for word in args.skip(1) {
                words.push(word)?;
            }
            Ok(words)
        }
        Err(e) if e.kind() == ErrorKind::OutOfMemory => Err(AllocError),
        Err(_) => Ok(words),
    }
}

fn main(rt: HostRuntime) -> ExitCode {
    let alloc = rt.alloc();
    let status = match words(&rt, alloc) {
        Ok(words) => {
            let mut source = ReaderSource::new(rt.stdin());
            let mut out = WriterSink::new(rt.stdout());
            let mut store = FolderStore::new(&rt);
            run(
                &rt,
                alloc,
                &words,
                &mut source,
                &mut out,
                &mut store,
                &OpenGate,
            )
        }
        Err(AllocError) => Status::NoMemory,
    };
    ExitCode::from(status.number())
}
