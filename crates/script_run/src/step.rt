//! One batch of a script on the shards of a table, and its text. Between two batches every reader knows all puts.
ghost use Rattle.std.specs.Prelude.{◌≡◌, ◌≤◌, ◌++◌, ℕ, List, Err, IfOk, length, vec_len};
ghost use Rattle.std.specs.List.{AllByRecursion};
ghost use Rattle.outside.specs.Causes.{HasCause};
ghost use Rattle.outside.specs.Streams.{Pushes};
ghost use Rattle.key_types.specs.Columns.{columns_of};
ghost use Rattle.script_text.specs.Puts.{Put};
ghost use Rattle.load_work.specs.declared.work.LoadError.TheVariants as load_error;
ghost use Rattle.script_run.specs.Runs.{IsRunGet, IsRunPut};
ghost use Rattle.script_run.specs.Steps.{IsBatchText, IsLeastFull, StandAfter};

use crate::answers::write_answers;
use crate::lines::{lend_gets, lend_puts};
use key_types::{ByteList, Schema};
use load_work::{LoadError, run_batch};
use outside::{Failed, Gate, Sink};
use script_text::Batch;
use shard_table::{ShardTable, Workers};
use std::alloc::Global;
use std::thread::Threads;

/// Runs a batch, and puts the lines of its answers into `text`, in place of what stands there.
pub(crate) fn answer_batch<R: Threads + Sync, G: Gate>(
    rt: &R,
    alloc: Global,
    schema: &Schema,
    table: &ShardTable,
    workers: &mut Workers,
    batch: &Batch,
    gate: &G,
    text: &mut ByteList,
) -> Result<(), LoadError>
    requires few { length table.now.shards ≤ 8 }
    requires eight { vec_len workers.old.readers ≤ 8 }
    requires stand { (cells : ℕ) × (before : List Put) × StandAfter cells table.now before workers.old }
    requires puts { AllByRecursion (IsRunPut table.now.bounds) batch.now.puts }
    requires gets { AllByRecursion (IsRunGet (vec_len workers.old.readers)) batch.now.gets }
    ensures count { IfOk result (λ _. vec_len workers.new.readers ≡ vec_len workers.old.readers) }
    ensures stand { (cells : ℕ) (before : List Put) → StandAfter cells table.now before workers.old
        → IfOk result (λ _. StandAfter cells table.now (before ++ batch.now.puts) workers.new) }
    ensures text { (cells : ℕ) (before : List Put) → StandAfter cells table.now before workers.old
        → IfOk result (λ _. IsBatchText (columns_of schema.now) table.now.bounds before batch.now text.new) }
    ensures full { (cells line : ℕ) (before : List Put) → StandAfter cells table.now before workers.old
        → result ≡ Err (load_error.Full line) → IsLeastFull cells table.now.bounds before batch.now.puts line }
{
    let puts = lend_puts(alloc, batch)?;
    let gets = lend_gets(alloc, batch)?;
    let answers = run_batch(
        rt,
        alloc,
        table,
        workers,
        puts.as_slice(),
        gets.as_slice(),
        gate,
    )?;
    text.truncate(0);
    write_answers(
        alloc,
        schema,
        table,
        workers,
        gets.as_slice(),
        answers.as_slice(),
        text,
    )?;
    Ok(())
}

/// Pushes the text of a batch, where it has any.
pub(crate) fn push_text<O: Sink>(text: &[u8], out: &mut O) -> Result<(), Failed>
    ensures bytes { Pushes (O.written out.old) (O.written out.new) result text.now }
    ensures cause { HasCause (O.faults out.old) (O.faults out.new) result }
{
    if text.is_empty() {
        return Ok(());
    }
    out.push(text)
}
