//! The value of a record that a reader's find answered. Whoever prints the answers of a batch calls it.

ghost use Rattle.std.specs.Prelude.{◌≡◌, ◌<◌, IfOk, vec_len, length, None};
ghost use Rattle.trie_rule.specs.Seats.{ReadsFrom};
ghost use Rattle.trie_reader.specs.Read.{IsSeenRecord, IsValueOfRecord};
ghost use Rattle.shard_table.specs.Seats.{AreWorkers, OfSeat};

use crate::table::ShardTable;
use crate::workers::Workers;
use key_types::{ByteList, NoMemory, ValueBytes};
use outside::Steps;
use std::alloc::Global;
use std::marker::Brand;
use std::sync::ledger::{Blank, Ledger};
use trie_image::Rec;
use trie_reader::copy_into;
use trie_rule::{ReadSeat, ShardCells};

/// The value of a record that the seat has seen, copied with a counter of steps of its own.
fn copy_with<L: Ledger>(
    cells: &ShardCells,
    alloc: Global,
    seat: &mut ReadSeat,
    rec: Rec,
    blank: Blank,
) -> Result<ValueBytes, NoMemory>
    requires name { blank.name ≡ L.name }
    requires parts { blank.parts ≡ L.parts }
    requires some { 0 < blank.parts }
    requires own { ReadsFrom cells.now seat.old }
    requires idle { seat.old.knows.reader.find ≡ None }
    requires record { IsSeenRecord seat.old.knows.seen rec }
    ensures same { seat.new ≡ seat.old }
    ensures value { IfOk result (IsValueOfRecord seat.old.knows.seen rec) }
{
    let mut steps: Steps<L> = Steps::new(blank);
    let mut bytes = vec![in alloc; 0u8; rec.length as usize]?;
    copy_into(cells, seat, rec, bytes.as_mut_slice(), &mut steps);
    Ok(ByteList::from_vec(bytes))
}

/// The value of a record that the seat has seen.
fn copy_value(
    cells: &ShardCells,
    alloc: Global,
    seat: &mut ReadSeat,
    rec: Rec,
) -> Result<ValueBytes, NoMemory>
    requires own { ReadsFrom cells.now seat.old }
    requires idle { seat.old.knows.reader.find ≡ None }
    requires record { IsSeenRecord seat.old.knows.seen rec }
    ensures same { seat.new ≡ seat.old }
    ensures value { IfOk result (IsValueOfRecord seat.old.knows.seen rec) }
{
    copy_with::<Brand>(cells, alloc, seat, rec, Blank::new(1))
}

impl ShardTable {
    /// The value of a record that a find of this reader on this shard answered. The seats stay as they were.
    pub fn value_of(
        &self,
        alloc: Global,
        workers: &mut Workers,
        reader: u32,
        shard: u32,
        rec: Rec,
    ) -> Result<ValueBytes, NoMemory>
        requires workers { AreWorkers self.now.shards workers.old }
        requires reader { reader < vec_len workers.old.readers }
        requires shard { shard < length self.now.shards }
        requires record { OfSeat (λ seat. IsSeenRecord seat.knows.seen rec) workers.old reader shard }
        ensures same { workers.new ≡ workers.old }
        ensures value { IfOk result (λ bytes.
            OfSeat (λ seat. IsValueOfRecord seat.knows.seen rec bytes) workers.old reader shard) }
    {
        let seat = &mut workers.readers[reader as usize][shard as usize];
        copy_value(self.cells(shard as usize), alloc, seat, rec)
    }
}
