//! The batches of a script on the shards of a table, one after the other. What is printed of a batch is pushed when it
//! has ended, and the readers then know all its puts.
ghost use Rattle.std.specs.Prelude.{◌≡◌, ◌≤◌, ◌<◌, ◌^◌, [], ℕ, Err, IfOk, length, vec_len};
ghost use Rattle.std.specs.List.{AllByRecursion};
ghost use Rattle.shard_table.specs.Shards.{BoundsAscend};
ghost use Rattle.outside.specs.Causes.{Rose};
ghost use Rattle.outside.specs.Told.{WhereTold};
ghost use Rattle.key_types.specs.Columns.{columns_of};
ghost use Rattle.key_types.specs.Table.{table_of};
ghost use Rattle.std.specs.FinMap as map;
ghost use Rattle.script_text.specs.Script.{entries_of, gets_of, puts_of};
ghost use Rattle.shard_table.specs.Together.{shard_entries};
ghost use Rattle.script_run.specs.declared.run.RunError.TheVariants as run_error;
ghost use Rattle.script_run.specs.Steps.{StandAfter, run_error_of};
ghost use Rattle.script_run.specs.Runs.{HasRoom, IsFirstFull, IsRunGet, IsRunPut, WritesAnswers};

use crate::open::open_table;
use crate::step::{answer_batch, push_text};
use key_types::{ByteList, NoMemory, Schema};
use load_work::LoadError;
use outside::{Failed, Gate, Sink};
use script_text::Batch;
use shard_table::{FrozenTable, KeyList, ShardTable, Workers};
use std::alloc::Global;
use std::thread::Threads;
use thiserror::Error;

/// Why the batches of a script weren't all run.
#[derive(Clone, Copy, PartialEq, Eq, Debug, Error)]
pub enum RunError {
    /// A shard had no room for the put of this line, the least of its batch for which one had none.
    #[error("line {0}: shard full")]
    Full(u32),
    /// The sink failed.
    #[error("the answers could not be printed")]
    SinkFault,
    /// Memory ran out.
    #[error("out of memory")]
    NoMemory,
}

impl From<NoMemory> for RunError {
    ghost from_gives = { λ _ e. e ≡ run_error.NoMemory };

    fn from(_e: NoMemory) -> RunError {
        RunError::NoMemory
    }
}

impl From<LoadError> for RunError {
    ghost from_gives = { λ e r. r ≡ run_error_of e };

    fn from(e: LoadError) -> RunError {
        match e {
            LoadError::Full(line) => RunError::Full(line),
            LoadError::NoMemory => RunError::NoMemory,
        }
    }
}

impl From<Failed> for RunError {
    ghost from_gives = { λ _ e. e ≡ run_error.SinkFault };

    fn from(_e: Failed) -> RunError {
        RunError::SinkFault
    }
}

/// Runs the batches one after the other, and pushes the text of each when it has ended.
fn run_batches<R: Threads + Sync, O: Sink, G: Gate>(
    rt: &R,
    alloc: Global,
    schema: &Schema,
    table: &ShardTable,
    workers: &mut Workers,
    batches: &[Batch],
    gate: &G,
    out: &mut O,
) -> Result<(), RunError>
    requires few { length table.now.shards ≤ 8 }
    requires eight { vec_len workers.old.readers ≤ 8 }
    requires stand { (cells : ℕ) × StandAfter cells table.now [] workers.old }
    requires puts { AllByRecursion (IsRunPut table.now.bounds) (puts_of batches.now) }
    requires gets { AllByRecursion (IsRunGet (vec_len workers.old.readers)) (gets_of batches.now) }
    ensures stand { (cells : ℕ) → StandAfter cells table.now [] workers.old
        → IfOk result (λ _. StandAfter cells table.now (puts_of batches.now) workers.new) }
    ensures answers { WhereTold (O.written out.old) (O.written out.new)
        (WritesAnswers (columns_of schema.now) table.now.bounds batches.now result) }
    ensures full { (cells line : ℕ) → StandAfter cells table.now [] workers.old → result ≡ Err (run_error.Full line)
        → IsFirstFull cells table.now.bounds batches.now line }
    ensures later { O.faults out.old ≤ O.faults out.new }
    ensures fault { result ≡ Err run_error.SinkFault → Rose (O.faults out.old) (O.faults out.new) }
{
    let mut text = ByteList::new(alloc);
    'batches: for batch in batches {
        answer_batch(rt, alloc, schema, table, workers, batch, gate, &mut text)?;
        push_text(text.as_slice(), out)?;
    }
    Ok(())
}

/// Runs the batches of a script on shards of so many cells each between the bounds, which ascend, and closes the table.
/// Each shard's writer makes its puts in the order of their lines, beside it each reader its gets, on threads of their
/// own; a batch's answers are printed when it has ended.
///
/// Errors: `Full`, with the answers of the batches before printed and none of its own; `SinkFault`; `NoMemory`.
pub fn run_script<R: Threads + Sync, O: Sink, G: Gate>(
    rt: &R,
    alloc: Global,
    schema: &Schema,
    batches: &[Batch],
    bounds: KeyList,
    cells: u32,
    readers: u32,
    gate: &G,
    out: &mut O,
) -> Result<FrozenTable, RunError>
    requires few { length bounds ≤ 7 }
    requires ascend { BoundsAscend bounds }
    requires least { 1024 ≤ cells }
    requires most { cells ≤ 2 ^ 22 }
    requires some { 1 ≤ readers }
    requires eight { readers ≤ 8 }
    requires puts { AllByRecursion (IsRunPut bounds) (puts_of batches.now) }
    requires gets { AllByRecursion (IsRunGet readers) (gets_of batches.now) }
    ensures answers { WhereTold (O.written out.old) (O.written out.new)
        (WritesAnswers (columns_of schema.now) bounds batches.now result) }
    ensures entries { IfOk result (λ frozen.
        shard_entries frozen ≡ map.entries (table_of (entries_of (puts_of batches.now)))) }
    ensures some { IfOk result (λ frozen. 0 < length frozen) }
    ensures full { (line : ℕ) → result ≡ Err (run_error.Full line) → IsFirstFull cells bounds batches.now line }
    ensures room { HasRoom cells bounds (puts_of batches.now) → (line : ℕ) → result ≡ Err (run_error.Full line) → ⊥ }
    ensures later { O.faults out.old ≤ O.faults out.new }
    ensures fault { result ≡ Err run_error.SinkFault → Rose (O.faults out.old) (O.faults out.new) }
{
    let (table, mut workers) = open_table(alloc, bounds, cells, readers)?;
    run_batches(rt, alloc, schema, &table, &mut workers, batches, gate, out)?;
    let frozen = table.close(alloc, workers)?;
    Ok(frozen)
}
