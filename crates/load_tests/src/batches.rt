//! Batches of rows, run and compared. The tests beside it call it, with workers that are free and have learnt.

ghost use Rattle.std.specs.Prelude.{◌≡◌, ◌≤◌, ◌<◌, All, IfOk, IfSome, length, vec_len};
ghost use Rattle.trie_reader.specs.Read.{IsSeenRecord};
ghost use Rattle.shard_table.specs.Seats.{AreWorkers, OfSeat};
ghost use Rattle.load_work.specs.Puts.{IsPut};
ghost use Rattle.load_work.specs.Work.{IsGetBelow, HaveLearnt};

use key_types::{NoMemory, ValueBytes};
use load_work::{Answer, LoadError, run_batch};
use outside::Gate;
use script_text::{GetLine, PutLine};
use shard_table::{ShardTable, Workers};
use std::alloc::Global;
use std::process::Abort;
use std::thread::Threads;

/// The line of a put, its key and its value.
pub(crate) type PutRow<'a> = (u32, &'a [u8], &'a [u8]);

/// The line of a get, its reader and its key.
pub(crate) type GetRow<'a> = (u32, u32, &'a [u8]);

/// A line, and after how many puts it may have answered which value.
pub(crate) type Wanted<'a> = (u32, u64, Option<&'a [u8]>);

/// A put whose partition's string is the first six bytes of its key.
fn put_of<'a>(rt: &impl Abort, row: PutRow<'a>) -> PutLine<'a>
    ensures { IsPut result }
{
    let (line, key, value) = row;
    assert!(rt; key.len() >= 6 && key.len() <= 2048 && value.len() <= 65_535);
    PutLine {
        line,
        partition: &key[..6],
        key,
        value,
    }
}

/// A get whose partition's string is the first six bytes of its key.
fn get_of<'a>(rt: &impl Abort, readers: usize, row: GetRow<'a>) -> GetLine<'a>
    ensures { IsGetBelow readers result }
{
    let (line, reader, key) = row;
    assert!(rt; key.len() >= 6 && key.len() <= 2048 && (reader as usize) < readers);
    GetLine {
        line,
        reader,
        partition: &key[..6],
        key,
    }
}

/// The puts of some rows.
pub(crate) fn puts_of<'a>(
    rt: &impl Abort,
    alloc: Global,
    rows: &[PutRow<'a>],
) -> Result<Vec<PutLine<'a>>, NoMemory>
    ensures { IfOk result (λ puts. All IsPut puts.items) }
{
    let mut puts = Vec::new(alloc);
    'rows: for row in rows {
        puts.push(put_of(rt, *row))?;
    }
    Ok(puts)
}

/// The gets of some rows.
pub(crate) fn gets_of<'a>(
    rt: &impl Abort,
    alloc: Global,
    readers: usize,
    rows: &[GetRow<'a>],
) -> Result<Vec<GetLine<'a>>, NoMemory>
    ensures { IfOk result (λ gets. All (IsGetBelow readers) gets.items) }
{
    let mut gets = Vec::new(alloc);
    'rows: for row in rows {
        gets.push(get_of(rt, readers, *row))?;
    }
    Ok(gets)
}

/// The value of what an answer found.
fn value_of(
    alloc: Global,
    table: &ShardTable,
    workers: &mut Workers,
    answer: Answer,
) -> Result<Option<ValueBytes>, NoMemory>
    requires workers { AreWorkers table.now.shards workers.old }
    requires reader { answer.reader < vec_len workers.old.readers }
    requires shard { answer.shard < length table.now.shards }
    requires record { IfSome answer.hit (λ rec.
        OfSeat (λ seat. IsSeenRecord seat.knows.seen rec) workers.old answer.reader answer.shard) }
    ensures { workers.new ≡ workers.old }
{
    let Some(rec) = answer.hit else {
        return Ok(None);
    };
    Ok(Some(table.value_of(alloc, workers, answer.reader, answer.shard, rec)?))
}

/// Whether a row wants this answer with this value.
fn is_wanted(wanted: &[Wanted], answer: Answer, value: &Option<ValueBytes>) -> bool {
    for (line, at, bytes) in wanted {
        if answer.line == *line
            && answer.at == *at
            && value.as_ref().map(|v| v.as_slice()) == *bytes
        {
            return true;
        }
    }
    false
}

/// Runs a batch: each answer is one that a row wants.
pub(crate) fn check_batch<R: Abort + Threads + Sync, G: Gate>(
    rt: &R,
    alloc: Global,
    table: &ShardTable,
    workers: &mut Workers,
    puts: &[PutLine],
    gets: &[GetLine],
    gate: &G,
    wanted: &[Wanted],
) -> Result<(), LoadError>
    requires few { length table.now.shards ≤ 8 }
    requires eight { vec_len workers.old.readers ≤ 8 }
    requires workers { AreWorkers table.now.shards workers.old }
    requires learnt { HaveLearnt workers.old }
    requires puts { All IsPut puts.now }
    requires gets { All (IsGetBelow (vec_len workers.old.readers)) gets.now }
    ensures workers { IfOk result (λ _. AreWorkers table.now.shards workers.new) }
    ensures learnt { IfOk result (λ _. HaveLearnt workers.new) }
    ensures count { IfOk result (λ _. vec_len workers.new.readers ≡ vec_len workers.old.readers) }
{
    let answers = run_batch(rt, alloc, table, workers, puts, gets, gate)?;
    assert_eq!(rt; answers.len(), gets.len());
    'answers: for i in 0..answers.len() {
        let answer = answers[i];
        let value = value_of(alloc, table, workers, answer)?;
        assert!(rt; is_wanted(wanted, answer, &value));
    }
    Ok(())
}
