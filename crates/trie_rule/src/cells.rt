//! The cells: a table of words under the rule. `writer` and `readers` have the steps of the two kinds of seat.
//!
//! Each call asks that the seat is one of these cells, and leaves it so. Only `new` takes memory.

ghost use Rattle.std.specs.Prelude.{◌≡◌, ◌≤◌, ◌^◌, IfOk, None};
ghost use Rattle.trie_rule.specs.Rule.{opening_write_view};
ghost use Rattle.trie_rule.specs.Seats.{WritesTo};

use crate::plays::TrieRule;
use crate::seats::WriteSeat;
use crate::views::View;
use crate::words::Words;
use atomic_table::Table;
use key_types::NoMemory;
use std::alloc::Global;
use std::marker::Model;
use std::snapshot::Snapshot;

mod readers;
mod writer;

/// The cells of a shard, four words each. Contracts see which table they are and how many cells there are.
#[derive(Drop)]
pub struct ShardCells {
    table: Table<(), View, u32, TrieRule, Global>,
    cells: u32,
}

impl Model for ShardCells {
    ghost use Rattle.std.specs.Prelude.{◌≡◌, ◌*◌, ◌≤◌, ◌^◌};
    ghost use Rattle.trie_rule.specs.Seats.{CellsAt};

    ghost Value = { CellsAt };

    ghost view = { λ s. record { table_id = s.table.shared.table_id; cells = s.cells } };

    ghost invariant = { λ s. let t = s.table.shared in
        (t.table_id.words ≡ 4 * s.cells) × (t.table_id.slots ≡ 0) × (t.key ≡ s.cells)
        × (1024 ≤ s.cells) × (s.cells ≤ 2 ^ 22) };
}

impl ShardCells {
    /// So many cells whose words are 0, and their write seat. The only refusal is want of memory.
    pub fn new(alloc: Global, cells: u32) -> Result<(ShardCells, WriteSeat), NoMemory>
        requires least { 1024 ≤ cells }
        requires most { cells ≤ 2 ^ 22 }
        ensures cells { IfOk result (λ t. t.0.cells ≡ cells) }
        ensures own { IfOk result (λ t. WritesTo t.0 t.1) }
        ensures opening { IfOk result (λ t. t.1.knows ≡ opening_write_view cells) }
    {
        // The table copies its words, so these zeros stand for no longer than this call.
        let zeros = vec![in alloc; 0u64; 4 * cells as usize]?;
        let (table, seat) = Table::of_words(alloc, zeros.as_slice(), &cells)?;
        Ok((
            ShardCells { table, cells },
            WriteSeat {
                seat,
                used: 1,
                done: 0,
            },
        ))
    }

    /// The number of cells.
    pub fn cells(&self) -> u32
        ensures is { result ≡ self.now.cells }
        ensures least { 1024 ≤ result }
        ensures most { result ≤ 2 ^ 22 }
    {
        self.cells
    }

    /// The words at the end, and the puts that they stand for.
    pub fn close(self, seat: WriteSeat) -> Words
        requires own { WritesTo self seat }
        requires idle { seat.knows.begun ≡ None }
        ensures words { result.words ≡ seat.knows.image }
        ensures made { result.made ≡ seat.knows.made }
    {
        let last = Snapshot::of(&seat);
        let ShardCells { table, cells: _ } = self;
        let WriteSeat {
            seat,
            used: _,
            done: _,
        } = seat;
        Words {
            closed: table.close_with(seat),
            last,
        }
    }
}
