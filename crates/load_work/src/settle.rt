//! What is done where all threads are joined: readers learn the writers' notes, and answers are bounded.

ghost use Rattle.std.specs.Prelude.{◌≡◌, ◌≤◌, ℕ, All, Some, length, min, take, slice_get};
ghost use Rattle.trie_image.specs.Puts.{HasLastPut};
ghost use Rattle.trie_writer.specs.Written.{MayWrite};
ghost use Rattle.trie_reader.specs.Read.{MayRead};
ghost use Rattle.shard_table.specs.Seats.{AreEach, AreWorkers, IsFreeWriter, IsFreeReader};
ghost use Rattle.script_text.specs.declared.spans.GetLine.{GetLine};
ghost use Rattle.load_work.specs.declared.batch.Answer.{Answer};
ghost use Rattle.load_work.specs.Reads.{IsGet, HasGrown};
ghost use Rattle.load_work.specs.Work.{HasLearnt, HaveLearnt, IsFoundFrom};
ghost use Rattle.load_work.specs.Merge.{ReadersHaveGrown, CanBeBounded, IsBounded};

use crate::batch::Answer;
use script_text::GetLine;
use shard_table::{ShardTable, Workers};
use trie_reader::{Found, learn};
use trie_rule::{ReadSeat, ShardCells, WriteSeat};
use trie_writer::{find_own, tell};

/// The reader comes to know all puts that the shard's writer has made.
pub(crate) fn learn_puts(cells: &ShardCells, writer: &mut WriteSeat, reader: &mut ReadSeat)
    requires write { MayWrite cells.now writer.old }
    requires read { MayRead cells.now reader.old }
    ensures same { writer.new ≡ writer.old }
    ensures read { MayRead cells.now reader.new }
    ensures grown { HasGrown reader.old reader.new }
    ensures learnt { HasLearnt writer.old reader.new }
{
    let note = tell(cells, writer);
    learn(cells, reader, note);
}

/// What was found, where it stands for no more puts than the writer has made; otherwise what its puts have at the key.
///
/// A reader never sees more puts than are made, so the second is never met. It makes the bound a fact that is proved.
pub(crate) fn bounded(cells: &ShardCells, writer: &mut WriteSeat, key: &[u8], found: Found) -> Found
    requires write { MayWrite cells.now writer.old }
    requires least { 1 ≤ length key.now }
    requires most { length key.now ≤ 2048 }
    requires found { IsFoundFrom writer.old.knows.made key.now found.hit found.at }
    ensures same { writer.new ≡ writer.old }
    ensures at { result.at ≡ min found.at (length writer.old.knows.made) }
    ensures map { HasLastPut (take result.at writer.old.knows.made) key.now result.hit }
{
    writer.is_standing();
    let made = cells.load_own(writer, 0);
    if found.at <= made {
        return found;
    }
    Found {
        hit: find_own(cells, writer, key),
        at: made,
    }
}

/// The reader comes to know all puts that the writers have made.
fn learn_each(table: &ShardTable, writers: &mut [WriteSeat], seats: &mut [ReadSeat])
    requires writing { AreEach IsFreeWriter table.now.shards writers.old }
    requires reading { AreEach IsFreeReader table.now.shards seats.old }
    ensures same { writers.new ≡ writers.old }
    ensures reading { AreEach IsFreeReader table.now.shards seats.new }
    ensures grown { AreEach HasGrown seats.old seats.new }
    ensures learnt { AreEach HasLearnt writers.old seats.new }
{
    for i in 0..seats.len() {
        learn_puts(table.cells(i), &mut writers[i], &mut seats[i]);
    }
}

/// All readers come to know all puts that the writers have made.
pub(crate) fn learn_all(
    table: &ShardTable,
    writers: &mut [WriteSeat],
    readers: &mut [Vec<ReadSeat>],
)
    requires writing { AreEach IsFreeWriter table.now.shards writers.old }
    requires reading { All (λ seats. AreEach IsFreeReader table.now.shards seats.items) readers.old }
    ensures same { writers.new ≡ writers.old }
    ensures count { length readers.new ≡ length readers.old }
    ensures reading { All (λ seats. AreEach IsFreeReader table.now.shards seats.items) readers.new }
    ensures grown { ReadersHaveGrown readers.old readers.new }
    ensures learnt { All (λ seats. AreEach HasLearnt writers.old seats.items) readers.new }
{
    for q in 0..readers.len() {
        learn_each(table, writers, readers[q].as_mut_slice());
    }
}

/// The answer to the get, bounded by the puts made.
fn bound(table: &ShardTable, writers: &mut [WriteSeat], get: &GetLine, answer: Answer) -> Answer
    requires writing { AreEach IsFreeWriter table.now.shards writers.old }
    requires get { IsGet get.now }
    requires can { CanBeBounded writers.old get.now answer }
    ensures same { writers.new ≡ writers.old }
    ensures bounded { IsBounded writers.old get.now answer result }
{
    let shard = answer.shard as usize;
    let found = Found {
        hit: answer.hit,
        at: answer.at,
    };
    let found = bounded(table.cells(shard), &mut writers[shard], get.key, found);
    Answer {
        hit: found.hit,
        at: found.at,
        ..answer
    }
}

/// Bounds the answers to the gets by the puts made.
pub(crate) fn bound_all(
    table: &ShardTable,
    writers: &mut [WriteSeat],
    gets: &[GetLine],
    answers: &mut [Answer],
)
    requires writing { AreEach IsFreeWriter table.now.shards writers.old }
    requires gets { All IsGet gets.now }
    requires can { AreEach (CanBeBounded writers.old) gets.now answers.old }
    ensures same { writers.new ≡ writers.old }
    ensures len { length answers.new ≡ length answers.old }
    ensures bounded { (i : ℕ) (g : GetLine) (a b : Answer) → slice_get gets.now i ≡ Some g →
        slice_get answers.old i ≡ Some a → slice_get answers.new i ≡ Some b → IsBounded writers.old g a b }
{
    for i in 0..gets.len() {
        answers[i] = bound(table, writers, &gets[i], answers[i]);
    }
}

/// Every reader comes to know all puts that the writers have made.
pub(crate) fn tell_readers(table: &ShardTable, workers: &mut Workers)
    requires { AreWorkers table.now.shards workers.old }
    ensures workers { AreWorkers table.now.shards workers.new }
    ensures same { workers.new.writers.items ≡ workers.old.writers.items }
    ensures count { length workers.new.readers.items ≡ length workers.old.readers.items }
    ensures grown { ReadersHaveGrown workers.old.readers.items workers.new.readers.items }
    ensures learnt { HaveLearnt workers.new }
{
    learn_all(
        table,
        workers.writers.as_mut_slice(),
        workers.readers.as_mut_slice(),
    );
}
