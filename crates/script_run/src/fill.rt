//! All puts of a script in one shard, by its writer alone: `list` calls it. No thread is started.
ghost use Rattle.std.specs.Prelude.{◌≡◌, ◌≤◌, ◌<◌, ◌^◌, [], ℕ, Err, IfErr, IfOk, length};
ghost use Rattle.std.specs.List.{AllByRecursion};
ghost use Rattle.key_types.specs.Table.{table_of};
ghost use Rattle.std.specs.FinMap as map;
ghost use Rattle.script_text.specs.Script.{entries_of, puts_of};
ghost use Rattle.shard_table.specs.Together.{shard_entries};
ghost use Rattle.script_run.specs.declared.run.RunError.TheVariants as run_error;
ghost use Rattle.trie_writer.specs.Written.{MayWrite};
ghost use Rattle.script_run.specs.Runs.{HasRoom, IsFullAt, IsRunPut, MakesPuts};
ghost use Rattle.script_run.specs.Steps.{StopsBefore};

use crate::open::open_table;
use crate::run::RunError;
use script_text::Batch;
use shard_table::{FrozenTable, KeyList};
use std::alloc::Global;
use trie_rule::{ShardCells, WriteSeat};
use trie_writer::put;

/// Makes the puts of a batch, in the order of their lines, up to the first for which the shard has no room.
fn fill_batch(cells: &ShardCells, seat: &mut WriteSeat, batch: &Batch) -> Result<(), RunError>
    requires may { MayWrite cells.now seat.old }
    requires puts { AllByRecursion (IsRunPut []) batch.now.puts }
    ensures may { MayWrite cells.now seat.new }
    ensures made { IfOk result (λ _. MakesPuts seat.old.knows batch.now.puts seat.new.knows) }
    ensures full { IfErr result (λ e.
        (line : ℕ) × (e ≡ run_error.Full line) × StopsBefore seat.old.knows batch.now.puts line) }
{
    'puts: for i in 0..batch.put_count() {
        let line = batch.put(i);
        if put(cells, seat, line.key, line.value).is_err() {
            return Err(RunError::Full(line.line));
        }
    }
    Ok(())
}

/// One shard of so many cells with the puts of all batches, in the order of their lines.
///
/// Errors: `Full` at the first line of which the shard has no room for the put; `NoMemory`.
pub fn fill_shard(alloc: Global, batches: &[Batch], cells: u32) -> Result<FrozenTable, RunError>
    requires least { 1024 ≤ cells }
    requires most { cells ≤ 2 ^ 22 }
    requires puts { AllByRecursion (IsRunPut []) (puts_of batches.now) }
    ensures entries { IfOk result (λ frozen.
        shard_entries frozen ≡ map.entries (table_of (entries_of (puts_of batches.now)))) }
    ensures some { IfOk result (λ frozen. 0 < length frozen) }
    ensures full { (line : ℕ) → result ≡ Err (run_error.Full line) → IsFullAt cells [] [] (puts_of batches.now) 0 line }
    ensures room { HasRoom cells [] (puts_of batches.now) → (line : ℕ) → result ≡ Err (run_error.Full line) → ⊥ }
    ensures sink { ¬ (result ≡ Err run_error.SinkFault) }
{
    let (table, mut workers) = open_table(alloc, KeyList::new(alloc), cells, 1)?;
    'batches: for batch in batches {
        fill_batch(table.cells(0), &mut workers.writers[0], batch)?;
    }
    let frozen = table.close(alloc, workers)?;
    Ok(frozen)
}
