//! A table's shards by their bounds. Bounds ascend, and there is one shard more than bounds.

ghost use Rattle.std.specs.Prelude.{◌≡◌, ◌↔◌, ◌+◌, ◌≤◌, ◌<◌, ◌^◌, ℕ, length, Some, Err, IfOk, vec_len, slice_get};
ghost use Rattle.std.specs.List.{All};
ghost use Rattle.shard_table.specs.declared.table.TableError.TheVariants as table_error;
ghost use Rattle.shard_table.specs.Shards.{IsFirstUnordered, shard_index};
ghost use Rattle.shard_table.specs.Seats.{AreEach, AreWorkers, HaveCells, IsNewWriter, IsNewReader};

use crate::bounds::{KeyList, first_unordered, index_of};
use crate::workers::{Workers, make_readers, make_shards};
use key_types::NoMemory;
use std::alloc::Global;
use std::marker::Model;
use thiserror::Error;
use trie_rule::ShardCells;

/// Why a table isn't made: a bound, by its place from 0, that isn't above the one before it, or want of memory.
#[derive(Clone, Copy, PartialEq, Eq, Debug, Error)]
pub enum TableError {
    #[error("bound {0} isn't above the one before it")]
    BadBounds(usize),
    #[error("out of memory")]
    NoMemory,
}

impl From<NoMemory> for TableError {
    ghost from_gives = { λ _ e. e ≡ table_error.NoMemory };

    fn from(_e: NoMemory) -> TableError {
        TableError::NoMemory
    }
}

/// The shards of a table. Contracts see the bounds between them, and their cells.
#[derive(Drop)]
pub struct ShardTable {
    pub(crate) bounds: KeyList,
    pub(crate) shards: Vec<ShardCells>,
}

impl Model for ShardTable {
    ghost use Rattle.std.specs.Prelude.{◌≡◌, ◌+◌, ◌≤◌, length, vec_len};
    ghost use Rattle.shard_table.specs.Shards.{BoundsAscend};
    ghost use Rattle.shard_table.specs.Seats.{TableAt};

    ghost Value = { TableAt };

    ghost view = { λ t. record { bounds = t.bounds; shards = t.shards.items } };

    ghost invariant = { λ t. (vec_len t.shards ≡ length t.bounds + 1) × BoundsAscend t.bounds };
}

impl ShardTable {
    /// The shards between the bounds, of so many cells each, with a writer and so many readers. Each partition belongs to
    /// one shard.
    ///
    /// BadBounds comes before any memory is asked for.
    pub fn new(
        alloc: Global,
        bounds: KeyList,
        cells: u32,
        readers: u32,
    ) -> Result<(ShardTable, Workers), TableError>
        requires few { length bounds ≤ 7 }
        requires least { 1024 ≤ cells }
        requires most { cells ≤ 2 ^ 22 }
        requires some { 1 ≤ readers }
        requires eight { readers ≤ 8 }
        ensures bad { (i : ℕ) → (result ≡ Err (table_error.BadBounds i)) ↔ IsFirstUnordered bounds i }
        ensures workers { IfOk result (λ made. AreWorkers made.0.shards made.1) }
        ensures bounds { IfOk result (λ made. made.0.bounds ≡ bounds) }
        ensures count { IfOk result (λ made. length made.0.shards ≡ length bounds + 1) }
        ensures cells { IfOk result (λ made. HaveCells cells made.0.shards) }
        ensures writers { IfOk result (λ made. AreEach IsNewWriter made.0.shards made.1.writers.items) }
        ensures reader_count { IfOk result (λ made. vec_len made.1.readers ≡ readers) }
        ensures readers { IfOk result (λ made.
            All (λ seats. AreEach IsNewReader made.0.shards seats.items) made.1.readers.items) }
    {
        if let Some(place) = first_unordered(&bounds) {
            return Err(TableError::BadBounds(place));
        }
        let (shards, mut writers) = make_shards(alloc, bounds.len() + 1, cells)?;
        let readers = make_readers(alloc, shards.as_slice(), writers.as_mut_slice(), readers)?;
        Ok((ShardTable { bounds, shards }, Workers { writers, readers }))
    }

    /// The shard of a partition, by its string.
    pub fn shard_of(&self, partition: &[u8]) -> usize
        ensures is { result ≡ shard_index self.now.bounds partition.now }
        ensures inside { result < length self.now.shards }
    {
        index_of(&self.bounds, partition)
    }

    /// The cells of a shard.
    pub fn cells(&self, shard: usize) -> &ShardCells
        requires { shard < length self.now.shards }
        ensures { slice_get self.now.shards shard ≡ Some result.now }
    {
        &self.shards[shard]
    }
}
