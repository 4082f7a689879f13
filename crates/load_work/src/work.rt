//! A whole batch: workers are dealt out to threads, and answers made of what they leave.

ghost use Rattle.std.specs.Prelude.{◌≡◌, ◌≤◌, ℕ, All, Err, IfOk, length, vec_len};
ghost use Rattle.shard_table.specs.Seats.{AreEach, AreWorkers};
ghost use Rattle.load_work.specs.declared.work.LoadError.TheVariants as load_error;
ghost use Rattle.load_work.specs.Puts.{IsPut};
ghost use Rattle.load_work.specs.Reads.{IsGet};
ghost use Rattle.load_work.specs.Deal.{HaveWritten, HaveRead};
ghost use Rattle.load_work.specs.Work.{IsGetBelow, HaveLearnt, HaveMade, HaveTried, IsAnswerOf, ReadsRise, IsFirstFull, NoneIsFull, LeavesWorkers};

use crate::batch::Answer;
use crate::deal::Dealt;
use crate::jobs::run_jobs;
use crate::left::Left;
use crate::merge::merge;
use crate::settle::{bound_all, tell_readers};
use key_types::NoMemory;
use outside::Gate;
use script_text::{GetLine, PutLine};
use shard_table::{ShardTable, Workers};
use std::alloc::Global;
use std::thread::Threads;
use thiserror::Error;

/// Why a batch has no answers: no room for the put of a line, or no memory.
#[derive(Clone, Copy, PartialEq, Eq, Debug, Error)]
pub enum LoadError {
    #[error("line {0}: shard full")]
    Full(u32),
    #[error("out of memory")]
    NoMemory,
}

impl From<NoMemory> for LoadError {
    ghost from_gives = { λ _ e. e ≡ load_error.NoMemory };

    fn from(_e: NoMemory) -> LoadError {
        LoadError::NoMemory
    }
}

/// Does the work of a batch on threads. Answers what each reader answered, and the least line of a put for which its
/// shard had no room.
fn run_workers<R: Threads + Sync, G: Gate>(
    rt: &R,
    alloc: Global,
    table: &ShardTable,
    workers: &mut Workers,
    puts: &[PutLine],
    gets: &[GetLine],
    gate: &G,
) -> Result<(Vec<Vec<Answer>>, Option<u32>), NoMemory>
    requires few { length table.now.shards ≤ 8 }
    requires eight { vec_len workers.old.readers ≤ 8 }
    requires workers { AreWorkers table.now.shards workers.old }
    requires puts { All IsPut puts.now }
    requires gets { All IsGet gets.now }
    ensures written { IfOk result (λ ran.
        HaveWritten table.now puts.now workers.old.writers.items workers.new.writers.items ran.1) }
    ensures read { IfOk result (λ ran.
        HaveRead table.now gets.now workers.old.readers.items workers.new.readers.items ran.0.items) }
{
    let shards = workers.writers.len();
    let count = workers.readers.len();
    let dealt = Dealt::of(alloc, table, puts, gets, workers)?;
    let Dealt { jobs, places } = dealt;
    let done = run_jobs(rt, alloc, table, puts, gets, gate, jobs)?;
    let mut left = Left { done, places };
    let (writers, first) = left.take_writers(alloc, shards)?;
    let (readers, lists) = left.take_readers(alloc, count)?;
    workers.writers = writers;
    workers.readers = readers;
    Ok((lists, first))
}

/// Makes the puts of a batch and answers its gets. Each shard's writer makes its puts in their order, beside them each
/// reader its gets in their order, and then every reader knows all puts. The gate is called before each put and read.
///
/// The answers stand in the order of the gets. `Full` has the least line for which a shard had no room; the puts before
/// such a put in its shard stand, and the table may be closed. Without memory, table and workers may only be dropped.
pub fn run_batch<R: Threads + Sync, G: Gate>(
    rt: &R,
    alloc: Global,
    table: &ShardTable,
    workers: &mut Workers,
    puts: &[PutLine],
    gets: &[GetLine],
    gate: &G,
) -> Result<Vec<Answer>, LoadError>
    requires few { length table.now.shards ≤ 8 }
    requires eight { vec_len workers.old.readers ≤ 8 }
    requires workers { AreWorkers table.now.shards workers.old }
    requires learnt { HaveLearnt workers.old }
    requires puts { All IsPut puts.now }
    requires gets { All (IsGetBelow (vec_len workers.old.readers)) gets.now }
    ensures workers { LeavesWorkers table.now.shards workers.new result }
    ensures count { IfOk result (λ _. vec_len workers.new.readers ≡ vec_len workers.old.readers) }
    ensures made { IfOk result (λ _. HaveMade table.now.bounds puts.now workers.old workers.new) }
    ensures learnt { IfOk result (λ _. HaveLearnt workers.new) }
    ensures answers { IfOk result (λ answers.
        AreEach (IsAnswerOf table.now workers.old workers.new) gets.now answers.items) }
    ensures rise { IfOk result (λ answers. ReadsRise answers.items) }
    ensures room { IfOk result (λ _. NoneIsFull table.now.bounds puts.now workers.old) }
    ensures full { (line : ℕ) → result ≡ Err (load_error.Full line) →
        IsFirstFull table.now.bounds puts.now workers.old line }
    ensures tried { (line : ℕ) → result ≡ Err (load_error.Full line) →
        HaveTried table.now.bounds puts.now workers.old workers.new }
{
    let (lists, first) = run_workers(rt, alloc, table, workers, puts, gets, gate)?;
    if let Some(line) = first {
        return Err(LoadError::Full(line));
    }
    tell_readers(table, workers);
    let mut answers = merge(alloc, gets, lists)?;
    bound_all(
        table,
        workers.writers.as_mut_slice(),
        gets,
        answers.as_mut_slice(),
    );
    Ok(answers)
}
