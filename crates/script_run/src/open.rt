//! The table of a script, before its first batch.
ghost use Rattle.std.specs.Prelude.{◌≡◌, ◌≤◌, ◌^◌, [], IfOk, length, vec_len};
ghost use Rattle.shard_table.specs.Shards.{BoundsAscend};
ghost use Rattle.script_run.specs.Steps.{StandAfter};

use key_types::NoMemory;
use shard_table::{KeyList, ShardTable, TableError, Workers};
use std::alloc::Global;

/// The shards between bounds that ascend, of so many cells each, and their workers.
pub(crate) fn open_table(
    alloc: Global,
    bounds: KeyList,
    cells: u32,
    readers: u32,
) -> Result<(ShardTable, Workers), NoMemory>
    requires few { length bounds ≤ 7 }
    requires ascend { BoundsAscend bounds }
    requires least { 1024 ≤ cells }
    requires most { cells ≤ 2 ^ 22 }
    requires some { 1 ≤ readers }
    requires eight { readers ≤ 8 }
    ensures stand { IfOk result (λ made. StandAfter cells made.0 [] made.1) }
    ensures bounds { IfOk result (λ made. made.0.bounds ≡ bounds) }
    ensures readers { IfOk result (λ made. vec_len made.1.readers ≡ readers) }
{
    match ShardTable::new(alloc, bounds, cells, readers) {
        Ok(made) => Ok(made),
        Err(TableError::NoMemory) => Err(NoMemory),
        Err(TableError::BadBounds(_)) => unreachable!(),
    }
}
