//! The puts of a batch that go to one shard, made by its writer in the order of their lines.

ghost use Rattle.std.specs.Prelude.{◌≡◌, ◌<◌, ◌≤◌, ◌^◌, ℕ, length, All};
ghost use Rattle.trie_writer.specs.Written.{MayWrite};
ghost use Rattle.load_work.specs.Puts.{IsPut, HasTried, HasWritten};

use outside::Gate;
use script_text::PutLine;
use shard_table::ShardTable;
use trie_rule::{ShardCells, WriteSeat};
use trie_writer::put;

/// Makes the put where it goes to the shard, and answers whether the shard had room for it.
fn try_put<G: Gate>(
    table: &ShardTable,
    cells: &ShardCells,
    shard: u32,
    seat: &mut WriteSeat,
    line: &PutLine,
    gate: &G,
) -> bool
    requires may { MayWrite cells.now seat.old }
    requires put { IsPut line.now }
    ensures may { MayWrite cells.now seat.new }
    ensures tried { HasTried table.now.bounds shard seat.old.knows seat.new.knows line.now result }
{
    if table.shard_of(line.partition) != shard as usize {
        return true;
    }
    gate.before_put(shard, line.line);
    put(cells, seat, line.key, line.value).is_ok()
}

/// Makes the batch's puts that go to the shard, up to the first for which it has no room; answers the line of this one.
pub(crate) fn make_puts<G: Gate>(
    table: &ShardTable,
    cells: &ShardCells,
    shard: u32,
    seat: &mut WriteSeat,
    puts: &[PutLine],
    gate: &G,
) -> Option<u32>
    requires may { MayWrite cells.now seat.old }
    requires puts { All IsPut puts.now }
    ensures may { MayWrite cells.now seat.new }
    ensures written { HasWritten table.now.bounds shard seat.old.knows seat.new.knows puts.now result }
{
    'puts: for line in puts {
        if !try_put(table, cells, shard, seat, line, gate) {
            return Some(line.line);
        }
    }
    None
}
