//! The shards of a table that is closed. A flush lists them in the order of their bounds.

ghost use Rattle.std.specs.Prelude.{◌≡◌, ◌<◌, length, Some, IfOk, slice_get};
ghost use Rattle.shard_table.specs.Shards.{KeysLie, ShardsAscend};
ghost use Rattle.shard_table.specs.Seats.{AreEach, AreWorkers, IsFreeWriter, IsClosed};

use crate::table::ShardTable;
use crate::workers::Workers;
use key_types::NoMemory;
use shard_freeze::Frozen;
use std::alloc::Global;
use std::marker::Model;
use trie_rule::{ShardCells, WriteSeat};

/// The shards of a table that is closed, which contracts see as their list.
#[derive(Drop)]
pub struct FrozenTable {
    frozen: Vec<Frozen>,
}

impl Model for FrozenTable {
    ghost use Rattle.std.specs.Prelude.{List};
    ghost use Rattle.trie_rule.specs.Seats.{KeptWords};

    ghost Value = { List KeptWords };

    ghost view = { λ t. t.frozen.items };
}

/// Ends each shard, from the last one to the first.
fn freeze_each(
    alloc: Global,
    shards: Vec<ShardCells>,
    writers: Vec<WriteSeat>,
) -> Result<Vec<Frozen>, NoMemory>
    requires { AreEach IsFreeWriter shards.items writers.items }
    ensures { IfOk result (λ frozen. AreEach IsClosed writers.items frozen.items) }
{
    let mut shards = shards;
    let mut writers = writers;
    let mut frozen = Vec::new(alloc);
    'shards: while let (Some(cells), Some(seat)) = (shards.pop(), writers.pop()) {
        frozen.push(Frozen::of(cells.close(seat)))?;
    }
    frozen.as_mut_slice().reverse();
    Ok(frozen)
}

impl ShardTable {
    /// Ends the shards. Without memory nothing is handed back.
    pub fn close(self, alloc: Global, workers: Workers) -> Result<FrozenTable, NoMemory>
        requires { AreWorkers self.shards workers }
        ensures closed { IfOk result (λ frozen. AreEach IsClosed workers.writers.items frozen) }
        ensures ascend { IfOk result (λ frozen. KeysLie self.bounds frozen → ShardsAscend frozen) }
    {
        let ShardTable { bounds: _, shards } = self;
        let Workers {
            writers,
            readers: _,
        } = workers;
        let frozen = freeze_each(alloc, shards, writers)?;
        Ok(FrozenTable { frozen })
    }
}

impl FrozenTable {
    /// The number of shards.
    pub fn shards(&self) -> usize
        ensures { result ≡ length self.now }
    {
        self.frozen.len()
    }

    /// A shard, by its place from 0.
    pub fn shard(&self, i: usize) -> &Frozen
        requires { i < length self.now }
        ensures { slice_get self.now i ≡ Some result.now }
    {
        &self.frozen[i]
    }
}
