//! A row as it is run, line by line: its store, and what was said of its next run.
ghost use Rattle.std.specs.Prelude.{◌<◌};

use crate::content::{number, put_content, word};
use crate::files::{cut, file_named, set_byte, with_fails};
use crate::row_error::RowError;
use crate::wanted::{Match, Wanted, all_suit};
use outside::{Fail, MemSink, MemSource, MemStore, OpenGate};
use std::alloc::Global;
use std::mem;
use std::thread::Threads;
use table_tool::run;

/// A pull gives so many bytes at most.
const PIECE: usize = 4093;

/// How many runs and comparisons of files there were, and how many were not as they should be.
#[derive(Clone, Copy, Debug, PartialEq, Eq)]
pub struct Score {
    pub good: u32,
    pub bad: u32,
}

/// What stands when a line is read.
#[derive(Drop)]
pub struct Bench {
    alloc: Global,
    store: MemStore,
    words: Vec<String>,
    script: Vec<u8>,
    content: Vec<u8>,
    text: Vec<u8>,
    wanted: Vec<Wanted>,
    source_fails: Vec<u64>,
    sink_fails: Vec<Fail>,
    pub score: Score,
}

impl Bench {
    pub fn new(alloc: Global) -> Bench {
        Bench {
            alloc,
            store: MemStore::new(alloc, Vec::new(alloc)),
            words: Vec::new(alloc),
            script: Vec::new(alloc),
            content: Vec::new(alloc),
            text: Vec::new(alloc),
            wanted: Vec::new(alloc),
            source_fails: Vec::new(alloc),
            sink_fails: Vec::new(alloc),
            score: Score { good: 0, bad: 0 },
        }
    }

    /// Counts a comparison, and answers whether it was as it should be.
    fn count(&mut self, good: bool) -> bool {
        if good {
            self.score.good = self.score.good.saturating_add(1);
        } else {
            self.score.bad = self.score.bad.saturating_add(1);
        }
        good
    }

    /// The words of the next run, parted by `|`.
    fn set_words(&mut self, text: &str) -> Result<(), RowError> {
        self.words = Vec::new(self.alloc);
        if text.is_empty() {
            return Ok(());
        }
        for word in text.split('|') {
            self.words.push(String::from_str(self.alloc, word)?)?;
        }
        Ok(())
    }

    /// Makes the text that was given one that is wanted.
    fn want(&mut self, kind: Match) -> Result<(), RowError> {
        let text = mem::replace(&mut self.text, Vec::new(self.alloc));
        self.wanted.push(Wanted { kind, text })?;
        Ok(())
    }

    /// `source CALL`, `sink CALL KEPT` or `store CALL KEPT`: the call fails.
    fn fail(&mut self, text: &str) -> Result<(), RowError> {
        let (side, rest) = word(text);
        let (call, keep) = word(rest);
        let call = u64::from(number(call)?);
        if side == "source" {
            self.source_fails.push(call)?;
            return Ok(());
        }
        let fail = Fail {
            call,
            keep: number(keep)?,
        };
        if side == "sink" {
            self.sink_fails.push(fail)?;
            return Ok(());
        }
        let fails = vec![in self.alloc; fail]?;
        self.store = with_fails(self.alloc, &self.store, fails)?;
        Ok(())
    }

    /// Runs the words, and answers whether status and text are those that are wanted.
    fn run_words<R: Threads + Sync>(&mut self, rt: &R, status: u32) -> Result<bool, RowError> {
        if self.wanted.is_empty() || !self.text.is_empty() {
            self.want(Match::Whole)?;
        }
        let alloc = self.alloc;
        let script = mem::replace(&mut self.script, Vec::new(alloc));
        let source_fails = mem::replace(&mut self.source_fails, Vec::new(alloc));
        let sink_fails = mem::replace(&mut self.sink_fails, Vec::new(alloc));
        let wanted = mem::replace(&mut self.wanted, Vec::new(alloc));
        let mut source = MemSource::new(script, PIECE, source_fails);
        let mut sink = MemSink::new(alloc, sink_fails);
        let found = run(
            rt,
            alloc,
            &self.words,
            &mut source,
            &mut sink,
            &mut self.store,
            &OpenGate,
        );
        let good = u32::from(found.number()) == status
            && all_suit(wanted.as_slice(), sink.written());
        Ok(self.count(good))
    }

    /// Sets a file to the content that was given.
    fn write(&mut self, name: &str) -> Result<(), RowError> {
        let content = mem::replace(&mut self.content, Vec::new(self.alloc));
        Ok(self.store.put_file(file_named(name)?, content)?)
    }

    /// Whether a file holds the content that was given.
    fn holds(&mut self, name: &str) -> Result<bool, RowError> {
        let content = mem::replace(&mut self.content, Vec::new(self.alloc));
        let good = self.store.contents(file_named(name)?) == Some(content.as_slice());
        Ok(self.count(good))
    }

    fn absent(&mut self, name: &str) -> Result<bool, RowError> {
        let good = self.store.contents(file_named(name)?).is_none();
        Ok(self.count(good))
    }

    /// A line that begins with a word.
    fn order<R: Threads + Sync>(&mut self, rt: &R, line: &str) -> Result<bool, RowError> {
        let (order, text) = word(line);
        match order {
            "row" => self.store = MemStore::new(self.alloc, Vec::new(self.alloc)),
            "run" => self.set_words(text)?,
            "fail" => self.fail(text)?,
            "or" => self.want(Match::Whole)?,
            "start" => self.want(Match::Start)?,
            "end" => self.want(Match::End)?,
            "status" => return self.run_words(rt, number(text)?),
            "write" => self.write(text)?,
            "holds" => return self.holds(text),
            "absent" => return self.absent(text),
            "cut" => cut(self.alloc, &mut self.store, text)?,
            "byte" => set_byte(self.alloc, &mut self.store, text)?,
            _ => return Err(RowError::BadLine),
        }
        Ok(true)
    }

    /// Does what a line says, and answers whether a comparison in it was as it should be.
    pub fn step<R: Threads + Sync>(&mut self, rt: &R, line: &str) -> Result<bool, RowError> {
        let alloc = self.alloc;
        match line.as_bytes() {
            [] | [b'-', ..] => {}
            [b'<', ..] => put_content(alloc, line.get(1..).unwrap_or(""), &mut self.script)?,
            [b'>', ..] => put_content(alloc, line.get(1..).unwrap_or(""), &mut self.text)?,
            [b':', ..] => put_content(alloc, line.get(1..).unwrap_or(""), &mut self.content)?,
            _ => return self.order(rt, line),
        }
        Ok(true)
    }
}
