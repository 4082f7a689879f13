//! How far a script is read: the batches that ended and the one that goes on.
//!
//! The reader of scripts hands it one line after another. What was counted is never more than the lines, and the spans
//! of the open batch lie in its buffer.
ghost use Rattle.std.specs.Prelude.{◌≡◌, ◌≤◌, ◌<◌, ◌+◌, ◌-◌, ◌++◌, ◌∷◌, [], length, Ok, Err, IfOk, IfErr, OnOk};
ghost use Rattle.key_types.specs.Columns.{columns_of};
ghost use Rattle.script_text.specs.Script.{most_lines, at_line, line_on};
ghost use Rattle.script_text.specs.Steps.{IsWhole, IsCounted, IsBegun, AddsPut, AddsGet, AddsLine, CountsKind, ReadsLine, next_line, script_after};

use crate::batch::{BatchList, LineKind, OpenBatch, accept_key, accept_value};
use crate::commands::{Command, KeyEnds};
use crate::said::read_line;
use crate::script::{LineCause, Script, ScriptError};
use crate::spans::{GetSpan, PutSpan};
use key_types::{ListOf, NoMemory, Schema, is_text};
use std::alloc::Global;
use std::mem;

/// What was read of a script.
#[derive(Drop)]
pub struct Progress {
    /// The batches that ended.
    pub batches: BatchList,
    /// The batch that goes on.
    pub batch: OpenBatch,
    /// The number of lines, and so that of the last line.
    pub line: u32,
    /// The number of gets.
    pub gets: u32,
    /// The number of puts.
    pub puts: u64,
}

/// Adds a put whose key and value stand in the buffer from `start` on.
fn add_put(
    batch: &mut OpenBatch,
    line: u32,
    start: usize,
    ends: KeyEnds,
) -> Result<LineKind, ScriptError>
    requires first { start ≤ ends.partition }
    requires second { ends.partition ≤ ends.clustering }
    requires third { ends.clustering ≤ length batch.old.buffer }
    ensures { AddsPut line start ends batch.old batch.new result }
{
    let key = accept_key(line, start, ends)?;
    let value = accept_value(line, batch.buffer.len() - ends.clustering)?;
    batch.puts.push(PutSpan { line, key, value })?;
    Ok(LineKind::Put)
}

/// Adds a get whose key stands in the buffer from `start` on.
fn add_get(
    batch: &mut OpenBatch,
    line: u32,
    reader: u32,
    start: usize,
    ends: KeyEnds,
) -> Result<LineKind, ScriptError>
    requires first { start ≤ ends.partition }
    requires second { ends.partition ≤ ends.clustering }
    ensures { AddsGet line reader start ends batch.old batch.new result }
{
    let key = accept_key(line, start, ends)?;
    batch.gets.push(GetSpan { line, reader, key })?;
    Ok(LineKind::Get)
}

/// Adds what a line says to the batch.
fn add_line(
    alloc: Global,
    schema: &Schema,
    line: u32,
    reader: u32,
    text: &[u8],
    batch: &mut OpenBatch,
) -> Result<LineKind, ScriptError>
    requires { IsWhole batch.old }
    ensures { AddsLine (at_line line (line_on (columns_of schema.now) line reader text.now)) batch.old batch.new result }
{
    if !is_text(text) {
        return Err(ScriptError::BadLine(line, LineCause::NotUtf8));
    }
    let start = batch.buffer.len();
    match read_line(alloc, schema, line, text, &mut batch.buffer) {
        Ok(None) => Ok(LineKind::Nothing),
        Ok(Some(Command::Put(ends))) => add_put(batch, line, start, ends),
        Ok(Some(Command::Get(ends))) => add_get(batch, line, reader, start, ends),
        Ok(Some(Command::Sync)) => Ok(LineKind::Sync),
        Err(error) => Err(error),
    }
}

impl Progress {
    /// Before the first line.
    pub fn new(alloc: Global) -> Progress
        ensures { IsBegun result }
    {
        Progress {
            batches: ListOf::new(alloc),
            batch: OpenBatch::new(alloc),
            line: 0,
            gets: 0,
            puts: 0,
        }
    }

    /// Counts a line of this kind, which was added to the batch. One that ends it begins the next.
    fn count(&mut self, alloc: Global, kind: LineKind) -> Result<(), NoMemory>
        requires gets { self.old.gets + 1 ≤ most_lines }
        requires puts { self.old.puts + 1 ≤ most_lines }
        requires whole { IsWhole self.old.batch }
        ensures { CountsKind kind self.old self.new result }
    {
        match kind {
            LineKind::Nothing => {}
            LineKind::Put => self.puts += 1,
            LineKind::Get => self.gets += 1,
            LineKind::Sync => {
                let ended = mem::replace(&mut self.batch, OpenBatch::new(alloc));
                self.batches.push(ended.close())?;
            }
        }
        Ok(())
    }

    /// Takes the next line. Gets go to so many readers in turn.
    pub fn take_line(
        &mut self,
        alloc: Global,
        schema: &Schema,
        readers: u32,
        text: &[u8],
    ) -> Result<(), ScriptError>
        requires some { 1 ≤ readers }
        requires room { self.old.line + 1 ≤ most_lines }
        requires counted { IsCounted self.old }
        ensures { ReadsLine (next_line (columns_of schema.now) readers self.old text.now) self.old self.new result }
    {
        self.line += 1;
        let reader = self.gets % readers;
        let kind = add_line(alloc, schema, self.line, reader, text, &mut self.batch)?;
        self.count(alloc, kind)?;
        Ok(())
    }

    /// The script of all lines that were taken.
    pub fn finish(self) -> Result<Script, NoMemory>
        requires { IsCounted self }
        ensures { IfOk result (λ script. script_after self (Ok []) ≡ Ok script) }
    {
        let Progress {
            mut batches,
            batch,
            puts,
            ..
        } = self;
        batches.push(batch.close())?;
        Ok(Script { batches, puts })
    }
}
