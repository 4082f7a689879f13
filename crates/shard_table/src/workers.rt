//! The seats of a table's workers, and how they are made. Whoever runs batches takes them out and puts them back.

ghost use Rattle.std.specs.Prelude.{◌≡◌, ◌≤◌, ◌^◌, IfOk, vec_len, length};
ghost use Rattle.std.specs.List.{All};
ghost use Rattle.shard_table.specs.Seats.{AreEach, HaveCells, IsNewWriter, IsNewReader};

use key_types::NoMemory;
use std::alloc::Global;
use trie_rule::{ReadSeat, ShardCells, WriteSeat};

/// One writer's seat for each shard, and one seat for each reader and shard: `readers[q][i]` is that of reader `q` at
/// shard `i`.
#[derive(Drop)]
pub struct Workers {
    pub writers: Vec<WriteSeat>,
    pub readers: Vec<Vec<ReadSeat>>,
}

/// So many shards of so many cells each, and their write seats.
pub(crate) fn make_shards(
    alloc: Global,
    count: usize,
    cells: u32,
) -> Result<(Vec<ShardCells>, Vec<WriteSeat>), NoMemory>
    requires least { 1024 ≤ cells }
    requires most { cells ≤ 2 ^ 22 }
    ensures each { IfOk result (λ made. AreEach IsNewWriter made.0.items made.1.items) }
    ensures cells { IfOk result (λ made. HaveCells cells made.0.items) }
    ensures count { IfOk result (λ made. vec_len made.0 ≡ count) }
{
    let mut shards = Vec::new(alloc);
    let mut writers = Vec::new(alloc);
    for _ in 0..count {
        let (shard, seat) = ShardCells::new(alloc, cells)?;
        shards.push(shard)?;
        writers.push(seat)?;
    }
    Ok((shards, writers))
}

/// A read seat of each shard.
fn make_reader(
    alloc: Global,
    shards: &[ShardCells],
    writers: &mut [WriteSeat],
) -> Result<Vec<ReadSeat>, NoMemory>
    requires new { AreEach IsNewWriter shards.now writers.old }
    ensures same { writers.new ≡ writers.old }
    ensures each { IfOk result (λ seats. AreEach IsNewReader shards.now seats.items) }
{
    let mut seats = Vec::new(alloc);
    for i in 0..shards.len() {
        let seat = shards[i].split(&mut writers[i]);
        seats.push(seat)?;
    }
    Ok(seats)
}

/// The seats of so many readers.
pub(crate) fn make_readers(
    alloc: Global,
    shards: &[ShardCells],
    writers: &mut [WriteSeat],
    readers: u32,
) -> Result<Vec<Vec<ReadSeat>>, NoMemory>
    requires new { AreEach IsNewWriter shards.now writers.old }
    ensures same { writers.new ≡ writers.old }
    ensures count { IfOk result (λ made. vec_len made ≡ readers) }
    ensures each { IfOk result (λ made. All (λ seats. AreEach IsNewReader shards.now seats.items) made.items) }
{
    let mut made = Vec::new(alloc);
    for _ in 0..readers {
        made.push(make_reader(alloc, shards, writers)?)?;
    }
    Ok(made)
}
