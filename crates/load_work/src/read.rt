//! The gets of a batch that go to one reader, made in the order of their lines.

ghost use Rattle.std.specs.Prelude.{◌≡◌, ◌<◌, ◌≤◌, ◌^◌, ℕ, length, All, IfOk, vec_len};
ghost use Rattle.trie_reader.specs.Read.{MayRead};
ghost use Rattle.shard_table.specs.Seats.{AreEach, IsFreeReader};
ghost use Rattle.load_work.specs.Reads.{IsGet, HasGrown, IsAnswered, AnswersTo, HasRead, AnswersRise, gets_of};

use crate::batch::Answer;
use key_types::NoMemory;
use outside::{Gate, Steps};
use script_text::GetLine;
use shard_table::ShardTable;
use std::alloc::Global;
use std::marker::Brand;
use std::sync::ledger::{Blank, Ledger};
use trie_reader::find;
use trie_rule::{ReadSeat, ShardCells};

/// The answer to a get of this shard, with a counter of steps of its own.
fn answer_with<L: Ledger>(
    cells: &ShardCells,
    shard: u32,
    seat: &mut ReadSeat,
    get: &GetLine,
    blank: Blank,
) -> Answer
    requires name { blank.name ≡ L.name }
    requires parts { blank.parts ≡ L.parts }
    requires some { 0 < blank.parts }
    requires may { MayRead cells.now seat.old }
    requires get { IsGet get.now }
    ensures may { MayRead cells.now seat.new }
    ensures grown { HasGrown seat.old seat.new }
    ensures answer { IsAnswered seat.old seat.new get.now result }
    ensures line { result.line ≡ get.now.line }
    ensures reader { result.reader ≡ get.now.reader }
    ensures shard { result.shard ≡ shard }
{
    let mut steps: Steps<L> = Steps::new(blank);
    let found = find(cells, seat, get.key, &mut steps);
    Answer {
        line: get.line,
        reader: get.reader,
        shard,
        hit: found.hit,
        at: found.at,
    }
}

/// The answer to a get of this shard.
fn answer(cells: &ShardCells, shard: u32, seat: &mut ReadSeat, get: &GetLine) -> Answer
    requires may { MayRead cells.now seat.old }
    requires get { IsGet get.now }
    ensures may { MayRead cells.now seat.new }
    ensures grown { HasGrown seat.old seat.new }
    ensures answer { IsAnswered seat.old seat.new get.now result }
    ensures line { result.line ≡ get.now.line }
    ensures reader { result.reader ≡ get.now.reader }
    ensures shard { result.shard ≡ shard }
{
    answer_with::<Brand>(cells, shard, seat, get, Blank::new(1))
}

/// Reads what a get asks for, by the reader's seat at its shard.
fn read_get<G: Gate>(table: &ShardTable, seats: &mut [ReadSeat], get: &GetLine, gate: &G) -> Answer
    requires few { length table.now.shards ≤ 8 }
    requires seats { AreEach IsFreeReader table.now.shards seats.old }
    requires get { IsGet get.now }
    ensures seats { AreEach IsFreeReader table.now.shards seats.new }
    ensures grown { AreEach HasGrown seats.old seats.new }
    ensures read { HasRead table.now.bounds seats.old seats.new get.now result }
{
    gate.before_read(get.reader, get.line);
    let shard = table.shard_of(get.partition);
    answer(table.cells(shard), shard as u32, &mut seats[shard], get)
}

/// Makes the reader's gets of the batch.
pub(crate) fn make_gets<G: Gate>(
    alloc: Global,
    table: &ShardTable,
    reader: u32,
    seats: &mut [ReadSeat],
    gets: &[GetLine],
    gate: &G,
) -> Result<Vec<Answer>, NoMemory>
    requires few { length table.now.shards ≤ 8 }
    requires seats { AreEach IsFreeReader table.now.shards seats.old }
    requires gets { All IsGet gets.now }
    ensures seats { AreEach IsFreeReader table.now.shards seats.new }
    ensures grown { AreEach HasGrown seats.old seats.new }
    ensures read { IfOk result (λ answers.
        AreEach (HasRead table.now.bounds seats.old seats.new) (gets_of reader gets.now) answers.items) }
    ensures rise { IfOk result (λ answers. AnswersRise answers.items) }
{
    let mut answers = Vec::new(alloc);
    'gets: for get in gets {
        if get.reader != reader {
            continue;
        }
        answers.push(read_get(table, seats, get, gate))?;
    }
    Ok(answers)
}
