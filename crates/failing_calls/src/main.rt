//! Commands of which each call of source, sink and store fails in turn: what each run leaves, its status, its text
//! and its files, is compared with what it may leave.
#![tactic(auto)]

mod calls;
mod judged;
mod trial;
mod trial_error;

use crate::calls::{Score, Undisturbed};
use crate::trial::{Command, Failing, Files, no_files, run_failing};
use crate::trial_error::TrialError;
use std::alloc::Global;
use std::process::ExitCode;
use std::thread::Threads;

fn words_of(alloc: Global, texts: &[&str]) -> Result<Vec<String>, TrialError> {
    let mut words = Vec::new(alloc);
    for text in texts {
        words.push(String::from_str(alloc, text)?)?;
    }
    Ok(words)
}

/// The script of the row `forty-rows`: forty rows of one partition, whose values have 1,000 bytes.
fn forty_rows(alloc: Global) -> Result<Vec<u8>, TrialError> {
    let mut script = Vec::new(alloc);
    for n in 0..40u32 {
        let start = format!(in alloc; "put (1) ({n}) = 0x")?;
        script.extend_from_slice(start.as_bytes())?;
        for _ in 0..2_000u32 {
            script.push(b'a')?;
        }
        script.push(b'\n')?;
    }
    Ok(script)
}

/// Lets each call of a command fail in turn, and prints how many runs there were.
fn try_command<R: AllocGlobal + Print + Threads + Sync>(
    rt: &R,
    name: &str,
    texts: &[&str],
    script: &[u8],
    files: &Files,
) -> Result<bool, TrialError> {
    let alloc = rt.alloc();
    let words = words_of(alloc, texts)?;
    let command = Command {
        words: words.as_slice(),
        script,
    };
    let Score { runs, bad } = Undisturbed::new(rt, alloc, command, files)?.fail_each(rt, alloc)?;
    println!(rt; "{name}: {runs} runs with a fault, {bad} that left what they may not")?;
    Ok(bad == 0)
}

/// The commands that read the table of `forty-rows`.
fn try_queries<R: AllocGlobal + Print + Threads + Sync>(
    rt: &R,
    script: &[u8],
) -> Result<bool, TrialError> {
    let alloc = rt.alloc();
    let words = words_of(alloc, &["load", "--schema", "(int; int; blob)"])?;
    let command = Command {
        words: words.as_slice(),
        script,
    };
    let table = run_failing(rt, alloc, command, &no_files(alloc), Failing::Nothing)?.files;
    let get = try_command(rt, "get of forty-rows", &["get", "(1) (17)"], b"", &table)?;
    let scan = try_command(rt, "scan of forty-rows", &["scan"], b"", &table)?;
    let bounds = ["scan", "--from", "(1) (17)", "--to", "(1) (35)"];
    let range = try_command(rt, "scan of a range of forty-rows", &bounds, b"", &table)?;
    let check = try_command(rt, "check of forty-rows", &["check"], b"", &table)?;
    Ok(get && scan && range && check)
}

fn try_all<R: AllocGlobal + Print + Threads + Sync>(rt: &R) -> Result<bool, TrialError> {
    let alloc = rt.alloc();
    let none = no_files(alloc);
    let forty = forty_rows(alloc)?;
    let small = ["load", "--schema", "(int; ; text)"];
    let put = b"put (1) () = 'a'";
    let put = try_command(rt, "load of one-put", &small, put, &none)?;
    let get = b"put (1) () = 'a'\nsync\nget (1) ()";
    let get = try_command(rt, "load of sync-then-get", &small, get, &none)?;
    let large = ["load", "--schema", "(int; int; blob)"];
    let rows = try_command(rt, "load of forty-rows", &large, forty.as_slice(), &none)?;
    let queries = try_queries(rt, forty.as_slice())?;
    Ok(put && get && rows && queries)
}

fn main(rt: HostRuntime) -> ExitCode {
    match try_all(&rt) {
        Ok(true) => ExitCode::SUCCESS,
        Ok(false) => ExitCode::from(1),
        Err(_) => ExitCode::from(2),
    }
}
