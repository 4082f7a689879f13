//! The worked rows that cross the crates, from a file of the folder in which the program is run: each line of `rows.txt` says
//! something of a row, and the program prints the rows' lines that are not as they should be, and how many there were.
//!
//! A line begins with `-` (a remark), with a sign for content (`<` the script, `>` the text that is wanted, `:` a file), whose
//! spellings `content` has, or with a word: `row NAME` begins a row with no files; `run WORDS`, parted by `|`, says the words of
//! the next run; `status N` makes it, and compares its status and its text; `or`, `start` and `end` make the text so far one of
//! several, the start of it, or its end; `fail SIDE CALL KEPT` lets a call fail; `write PART`, `cut PART LENGTH` and
//! `byte PART PLACE HEX` change a file, `holds PART` and `absent PART` look at it.
#![tactic(auto)]

mod bench;
mod content;
mod files;
mod row_error;
mod wanted;

use crate::bench::{Bench, Score};
use crate::row_error::RowError;
use std::fs;
use std::process::ExitCode;
use std::rt::Files;
use std::thread::Threads;

fn run_rows<R: Files + AllocGlobal + Print + Threads + Sync>(rt: &R) -> Result<Score, RowError> {
    let text = fs::read_to_string(rt, "rows.txt")?;
    let mut bench = Bench::new(rt.alloc());
    let mut number = 0u32;
    for line in text.as_str().lines() {
        number = number.saturating_add(1);
        match bench.step(rt, line) {
            Ok(true) => {}
            Ok(false) => println!(rt; "line {number}: not as it should be")?,
            Err(e) => {
                println!(rt; "line {number}: {e}")?;
                return Err(e);
            }
        }
    }
    Ok(bench.score)
}

fn main(rt: HostRuntime) -> ExitCode {
    match run_rows(&rt) {
        Ok(score) => {
            let told = println!(&rt; "{} as they should be, {} not", score.good, score.bad);
            ExitCode::from(u8::from(told.is_err() || score.bad > 0))
        }
        Err(_) => ExitCode::from(2),
    }
}
