//! Batches: the puts and gets between two `sync` lines, in one buffer.
//!
//! The reader of scripts fills an `OpenBatch` line by line and closes it; the layers above take puts and gets out of a
//! `Batch`. The spans of a batch always lie in its buffer.
ghost use Rattle.std.specs.Prelude.{◌≡◌, ◌≤◌, ◌<◌, length, ◌-◌, Ok, Err, IfOk, IfErr};
ghost use Rattle.script_text.specs.Pieces.{LendsPutAt, LendsGetAt};
ghost use Rattle.script_text.specs.Script.{at_line, short_key, short_value, empty_batch};
ghost use Rattle.script_text.specs.Steps.{IsWhole, batch_so_far, IsSpanOf, short_ends};

use crate::commands::KeyEnds;
use crate::script::{LineCause, ScriptError};
use crate::spans::{GetLine, GetSpan, KeySpan, PutLine, PutSpan, lend_get, lend_put};
use byte_comparable::LONGEST_STRING;
use key_types::{ByteList, LONGEST_VALUE, ListOf};
use std::alloc::Global;
use std::marker::Model;

/// Puts and gets that may be done side by side, each in the order of their lines. Contracts see the two lists.
#[derive(Debug, Drop)]
pub struct Batch {
    buffer: ByteList,
    puts: ListOf<PutSpan>,
    gets: ListOf<GetSpan>,
}

impl Model for Batch {
    ghost use Rattle.std.specs.Prelude.{length};
    ghost use Rattle.script_text.specs.Puts as seen;
    ghost use Rattle.script_text.specs.Pieces.{batch_in, PutsLie, GetsLie};

    ghost Value = { seen.Batch };

    ghost view = { λ b. batch_in b.buffer b.puts b.gets };

    ghost invariant = { λ b. PutsLie (length b.buffer) b.puts × GetsLie (length b.buffer) b.gets };
}

impl Batch {
    /// The number of puts.
    pub fn put_count(&self) -> usize
        ensures { result ≡ length self.now.puts }
    {
        self.puts.len()
    }

    /// The number of gets.
    pub fn get_count(&self) -> usize
        ensures { result ≡ length self.now.gets }
    {
        self.gets.len()
    }

    /// The put at place `i`, counted from 0.
    pub fn put(&self, i: usize) -> PutLine<'_>
        requires { i < length self.now.puts }
        ensures { LendsPutAt self.now.puts i result }
    {
        lend_put(self.buffer.as_slice(), self.puts.as_slice()[i])
    }

    /// The get at place `i`, counted from 0.
    pub fn get(&self, i: usize) -> GetLine<'_>
        requires { i < length self.now.gets }
        ensures { LendsGetAt self.now.gets i result }
    {
        lend_get(self.buffer.as_slice(), self.gets.as_slice()[i])
    }
}

/// Batches in the order of a script.
pub type BatchList = ListOf<Batch>;

/// A batch to which lines are added. After a line that was refused its buffer may hold a part of it.
#[derive(Drop)]
pub struct OpenBatch {
    pub buffer: ByteList,
    pub puts: ListOf<PutSpan>,
    pub gets: ListOf<GetSpan>,
}

/// What a line was.
#[derive(Clone, Copy)]
pub enum LineKind {
    Nothing,
    Put,
    Get,
    Sync,
}

/// The length of a string of a key, where it isn't too great.
fn accept_string(line: u32, length: usize) -> Result<u16, ScriptError>
    ensures same { IfOk result (λ n. n ≡ length) }
    ensures ok { IfOk result (λ _. short_key length ≡ Ok tt) }
    ensures err { IfErr result (λ error. at_line line (short_key length) ≡ Err error) }
{
    if length > LONGEST_STRING {
        return Err(ScriptError::BadLine(line, LineCause::KeyTooLong(length)));
    }
    Ok(length as u16)
}

/// The length of a value, where it isn't too great.
pub fn accept_value(line: u32, length: usize) -> Result<u16, ScriptError>
    ensures same { IfOk result (λ n. n ≡ length) }
    ensures ok { IfOk result (λ _. short_value length ≡ Ok tt) }
    ensures err { IfErr result (λ error. at_line line (short_value length) ≡ Err error) }
{
    if length > LONGEST_VALUE {
        return Err(ScriptError::BadLine(line, LineCause::ValueTooLong(length)));
    }
    Ok(length as u16)
}

/// The span of a key from `start` on, where neither string is too long.
pub fn accept_key(line: u32, start: usize, ends: KeyEnds) -> Result<KeySpan, ScriptError>
    requires first { start ≤ ends.partition }
    requires second { ends.partition ≤ ends.clustering }
    ensures same { IfOk result (λ span. IsSpanOf start ends span) }
    ensures ok { IfOk result (λ _. short_ends start ends ≡ Ok tt) }
    ensures err { IfErr result (λ error. at_line line (short_ends start ends) ≡ Err error) }
{
    let partition = accept_string(line, ends.partition - start)?;
    let clustering = accept_string(line, ends.clustering - ends.partition)?;
    Ok(KeySpan {
        start,
        partition,
        clustering,
    })
}

impl OpenBatch {
    /// The batch without lines.
    pub fn new(alloc: Global) -> OpenBatch
        ensures whole { IsWhole result }
        ensures empty { batch_so_far result ≡ empty_batch }
    {
        OpenBatch {
            buffer: ByteList::new(alloc),
            puts: ListOf::new(alloc),
            gets: ListOf::new(alloc),
        }
    }

    /// The batch of the lines that were added.
    pub fn close(self) -> Batch
        requires { IsWhole self }
        ensures { result ≡ batch_so_far self }
    {
        let OpenBatch { buffer, puts, gets } = self;
        Batch { buffer, puts, gets }
    }
}
