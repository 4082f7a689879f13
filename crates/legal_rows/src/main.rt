//! A script of 2,000 lines over four shards and three readers, loaded, and each of its answers compared with what it may be: by a
//! plain pass over the lines of the script, which shares nothing with the program but the words and the text.
#![tactic(auto)]

mod answers;
mod checker;
mod lines;
mod row_error;

use crate::checker::Checker;
use crate::lines::{Line, make_lines};
use crate::row_error::RowError;
use outside::{MemSink, MemSource, MemStore, OpenGate};
use std::alloc::Global;
use std::process::ExitCode;
use std::thread::Threads;
use table_tool::run;

/// How many lines there are.
const LINES: u32 = 2000;

fn put_line(alloc: Global, line: Line, out: &mut Vec<u8>) -> Result<(), RowError> {
    let text = match line {
        Line::Put { key, value } => format!(in alloc; "put ({key}) () = '{value}'\n")?,
        Line::Get { key } => format!(in alloc; "get ({key}) ()\n")?,
        Line::Sync => format!(in alloc; "sync\n")?,
    };
    out.extend_from_slice(text.as_bytes())?;
    Ok(())
}

fn script_of(alloc: Global, lines: &[Line]) -> Result<Vec<u8>, RowError> {
    let mut script = Vec::new(alloc);
    for line in lines {
        put_line(alloc, *line, &mut script)?;
    }
    Ok(script)
}

fn load_words(alloc: Global) -> Result<Vec<String>, RowError> {
    let mut words = Vec::new(alloc);
    for word in [
        "load",
        "--schema",
        "(int; ; text)",
        "--bounds",
        "(16)(32)(48)",
        "--readers",
        "3",
    ] {
        words.push(String::from_str(alloc, word)?)?;
    }
    Ok(words)
}

/// Loads the script, and prints how many answers were legal, how many were not, and the last line.
fn run_script<R: AllocGlobal + Print + Threads + Sync>(rt: &R) -> Result<bool, RowError> {
    let alloc = rt.alloc();
    let lines = make_lines(alloc, LINES)?;
    let words = load_words(alloc)?;
    let mut source = MemSource::new(script_of(alloc, lines.as_slice())?, 4093, Vec::new(alloc));
    let mut sink = MemSink::new(alloc, Vec::new(alloc));
    let mut store = MemStore::new(alloc, Vec::new(alloc));
    run(
        rt,
        alloc,
        &words,
        &mut source,
        &mut sink,
        &mut store,
        &OpenGate,
    );
    let Ok(text) = str::from_utf8(sink.written()) else {
        return Err(RowError::NoText);
    };
    let mut checker = Checker::new(alloc, text)?;
    let whole = checker.pass(lines.as_slice())?;
    let last = text.lines().last().unwrap_or("");
    println!(rt; "{} answers, {} not legal", checker.gets, checker.bad)?;
    println!(rt; "{last}")?;
    Ok(whole && checker.bad == 0)
}

fn main(rt: HostRuntime) -> ExitCode {
    match run_script(&rt) {
        Ok(true) => ExitCode::SUCCESS,
        Ok(false) => ExitCode::from(1),
        Err(_) => ExitCode::from(2),
    }
}
