//! Two tables whose files are changed byte by byte, two values a byte: each of their gets, scans and checks is
//! compared, text and status, with what a plain reader of the same files finds, which shares nothing with the program
//! but its words. Where the files are sound, a get is compared with what Data.db lists.
#![tactic(auto)]

mod bytes;
mod changes;
mod checker;
mod fault;
mod indexes;
mod keys;
mod listing;
mod node;
mod paths;
mod printed;
mod reader_error;
mod sample;
mod table;
mod trie;
mod wrong;

use crate::changes::{Spot, spots_of};
use crate::keys::Kind;
use crate::printed::{Printed, Query, expected};
use crate::reader_error::ReaderError;
use crate::sample::{Get, Repeated, Script, answer_of, bytes_of, file_of, loaded, table_of};
use outside::MemStore;
use std::alloc::Global;
use std::process::ExitCode;
use std::thread::Threads;

const PARTITION: &[u8] = &[0x40, 0x80, 0, 0, 1, 0x38];

const FORTY_ROWS: Script = Script {
    name: "forty-rows",
    schema: "(int; int; blob)",
    kind: Kind::Int,
    lines: &[Repeated {
        first: 0,
        last: 39,
        before: "put (1) (",
        behind: ") = 0x",
        letters: 2000,
    }],
    gets: &[
        Get {
            text: "(1) (0)",
            partition: PARTITION,
            clustering: &[0x40, 0x80, 0, 0, 0, 0x38],
        },
        Get {
            text: "(1) (17)",
            partition: PARTITION,
            clustering: &[0x40, 0x80, 0, 0, 17, 0x38],
        },
        Get {
            text: "(1) (40)",
            partition: PARTITION,
            clustering: &[0x40, 0x80, 0, 0, 40, 0x38],
        },
    ],
};

const THREE_BLOCKS: Script = Script {
    name: "three-blocks",
    schema: "(int; text; blob)",
    kind: Kind::Text,
    lines: &[
        Repeated {
            first: 1,
            last: 1,
            before: "put (1) ('a') = 0x",
            behind: "",
            letters: 32768,
        },
        Repeated {
            first: 1,
            last: 1,
            before: "put (1) ('b') = 0x",
            behind: "",
            letters: 32768,
        },
        Repeated {
            first: 1,
            last: 1,
            before: "put (1) ('bc') = 0x",
            behind: "",
            letters: 32768,
        },
    ],
    gets: &[
        Get {
            text: "(1) ('a')",
            partition: PARTITION,
            clustering: &[0x40, b'a', 0, 0x38],
        },
        Get {
            text: "(1) ('bb')",
            partition: PARTITION,
            clustering: &[0x40, b'b', b'b', 0, 0x38],
        },
        Get {
            text: "(1) ('bc')",
            partition: PARTITION,
            clustering: &[0x40, b'b', b'c', 0, 0x38],
        },
    ],
};

/// How many answers were as the plain reader finds, and how many were not.
#[derive(Clone, Copy)]
struct Score {
    good: u32,
    bad: u32,
}

impl Score {
    fn count(&mut self, good: bool) {
        if good {
            self.good = self.good.saturating_add(1);
        } else {
            self.bad = self.bad.saturating_add(1);
        }
    }
}

/// Whether the program answers a query as is wanted.
fn agrees<R: Threads + Sync>(
    rt: &R,
    alloc: Global,
    words: &[&str],
    wanted: &Printed,
    store: &mut MemStore,
) -> Result<bool, ReaderError> {
    let found = answer_of(rt, alloc, words, store)?;
    Ok(wanted.status == found.status && wanted.text.as_slice() == found.text.as_slice())
}

/// Asks a query, and answers whether it is to end Ok.
fn ask<R: Threads + Sync>(
    rt: &R,
    alloc: Global,
    kind: Kind,
    words: &[&str],
    query: Query<'_>,
    store: &mut MemStore,
    score: &mut Score,
) -> Result<bool, ReaderError> {
    let wanted = expected(alloc, &table_of(store, kind)?, query)?;
    score.count(agrees(rt, alloc, words, &wanted, store)?);
    Ok(wanted.status == 0)
}

/// Asks all queries of a script.
fn ask_all<R: Threads + Sync>(
    rt: &R,
    alloc: Global,
    script: &Script,
    store: &mut MemStore,
    score: &mut Score,
) -> Result<(), ReaderError> {
    let kind = script.kind;
    let is_sound = ask(rt, alloc, kind, &["check"], Query::Check, store, score)?;
    for get in script.gets {
        ask(
            rt,
            alloc,
            kind,
            &["get", get.text],
            get.query(is_sound),
            store,
            score,
        )?;
    }
    ask(rt, alloc, kind, &["scan"], Query::Scan, store, score)?;
    Ok(())
}

/// Sets a byte, and asks all queries; then the byte is as it was.
fn ask_changed<R: Threads + Sync>(
    rt: &R,
    alloc: Global,
    script: &Script,
    store: &mut MemStore,
    spot: Spot,
    score: &mut Score,
) -> Result<(), ReaderError> {
    let file = file_of(spot.part);
    let whole = bytes_of(store, spot.part)?.to_vec(alloc)?;
    let old = whole.get(spot.at as usize).copied().unwrap_or(0);
    for new in [old.wrapping_add(1), !old] {
        let mut changed = whole.as_slice().to_vec(alloc)?;
        if let Some(byte) = changed.get_mut(spot.at as usize) {
            *byte = new;
        }
        store.put_file(file, changed)?;
        ask_all(rt, alloc, script, store, score)?;
    }
    Ok(store.put_file(file, whole)?)
}

/// Loads a script, asks all queries of its table as it was written and with each byte changed, and prints how many of
/// the answers were as the plain reader finds.
fn try_script<R: AllocGlobal + Print + Threads + Sync>(
    rt: &R,
    script: &Script,
) -> Result<bool, ReaderError> {
    let alloc = rt.alloc();
    let mut store = loaded(rt, alloc, script)?;
    let mut score = Score { good: 0, bad: 0 };
    ask_all(rt, alloc, script, &mut store, &mut score)?;
    for spot in spots_of(alloc, &store, script.kind)?.as_slice() {
        ask_changed(rt, alloc, script, &mut store, *spot, &mut score)?;
    }
    let Score { good, bad } = score;
    println!(rt;
        "{}: {good} as the plain reader finds, {bad} not",
        script.name
    )?;
    Ok(bad == 0)
}

fn try_all<R: AllocGlobal + Print + Threads + Sync>(rt: &R) -> Result<bool, ReaderError> {
    let forty = try_script(rt, &FORTY_ROWS)?;
    let three = try_script(rt, &THREE_BLOCKS)?;
    Ok(forty && three)
}

fn main(rt: HostRuntime) -> ExitCode {
    match try_all(&rt) {
        Ok(true) => ExitCode::SUCCESS,
        Ok(false) => ExitCode::from(1),
        Err(_) => ExitCode::from(2),
    }
}
