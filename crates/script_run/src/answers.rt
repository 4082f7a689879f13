//! The answers of a batch as text. The batch has ended, so its seats are free.
ghost use Rattle.std.specs.Prelude.{◌≡◌, ◌++◌, List, OnOk, IfOk, codes, decimal};
ghost use Rattle.key_types.specs.Columns.{columns_of};
ghost use Rattle.script_text.specs.Puts.{Get};
ghost use Rattle.script_text.specs.Pieces.{LendsGet};
ghost use Rattle.shard_table.specs.Seats.{AreEach, AreWorkers};
ghost use Rattle.load_work.specs.Work.{HaveLearnt};
ghost use Rattle.script_run.specs.Answers.{IsAnsweredBy, answer_lines, value_answered};
ghost use Rattle.script_run.specs.Legal.{answer_line, type_behind, value_text};

use itoa::Buffer;
use key_text::write_bytes;
use key_types::{ByteList, NoMemory, Schema, ValueBytes, ValueType};
use load_work::Answer;
use script_text::GetLine;
use shard_table::{ShardTable, Workers};
use std::alloc::Global;

/// The value that an answer found.
fn value_found(
    alloc: Global,
    table: &ShardTable,
    workers: &mut Workers,
    get: &GetLine,
    answer: &Answer,
) -> Result<Option<ValueBytes>, NoMemory>
    requires workers { AreWorkers table.now.shards workers.old }
    requires learnt { HaveLearnt workers.old }
    requires answered { IsAnsweredBy workers.old get.now answer.now }
    ensures same { workers.new ≡ workers.old }
    ensures value { (asked : Get) → LendsGet get.now asked
        → IfOk result (λ value. value ≡ value_answered workers.old asked answer.now) }
{
    match answer.hit {
        None => Ok(None),
        Some(rec) => Ok(Some(table.value_of(alloc, workers, answer.reader, answer.shard, rec)?)),
    }
}

/// The type of the value at a get's key.
fn type_asked(schema: &Schema, get: &GetLine) -> ValueType
    ensures { (asked : Get) → LendsGet get.now asked → result ≡ type_behind (columns_of schema.now) asked.clustering }
{
    match schema.static_value {
        Some(kind) if get.key.len() == get.partition.len() => kind,
        _ => schema.value,
    }
}

/// Appends a value's literal, or `none`.
fn write_value(
    out: &mut ByteList,
    kind: ValueType,
    value: Option<ValueBytes>,
) -> Result<(), NoMemory>
    ensures { OnOk result (out.new ≡ out.old ++ value_text kind value) }
{
    match value {
        None => out.extend(b"none"),
        Some(bytes) => write_bytes(kind, bytes.as_slice(), out),
    }
}

/// Appends the number of puts after which a value holds, and ends the line.
fn end_line(out: &mut ByteList, at: u64) -> Result<(), NoMemory>
    ensures { OnOk result (out.new ≡ out.old ++ (codes " @" ++ (decimal at ++ codes "\n"))) }
{
    let mut digits = Buffer::new();
    out.extend(b" @")?;
    out.extend(digits.format(at).as_bytes())?;
    out.push(b'\n')
}

/// Appends the line of a get's answer.
fn write_answer(
    alloc: Global,
    schema: &Schema,
    table: &ShardTable,
    workers: &mut Workers,
    get: &GetLine,
    answer: &Answer,
    out: &mut ByteList,
) -> Result<(), NoMemory>
    requires workers { AreWorkers table.now.shards workers.old }
    requires learnt { HaveLearnt workers.old }
    requires answered { IsAnsweredBy workers.old get.now answer.now }
    ensures same { workers.new ≡ workers.old }
    ensures line { (asked : Get) → LendsGet get.now asked
        → let value = value_answered workers.old asked answer.now in
        OnOk result (out.new ≡ out.old ++ answer_line (columns_of schema.now) asked value answer.now.at) }
{
    let value = value_found(alloc, table, workers, get, answer)?;
    write_value(out, type_asked(schema, get), value)?;
    end_line(out, answer.at)
}

/// Appends the lines of a batch's answers, in the order of its gets.
pub(crate) fn write_answers(
    alloc: Global,
    schema: &Schema,
    table: &ShardTable,
    workers: &mut Workers,
    gets: &[GetLine],
    answers: &[Answer],
    out: &mut ByteList,
) -> Result<(), NoMemory>
    requires workers { AreWorkers table.now.shards workers.old }
    requires learnt { HaveLearnt workers.old }
    requires answered { AreEach (IsAnsweredBy workers.old) gets.now answers.now }
    ensures same { workers.new ≡ workers.old }
    ensures lines { (asked : List Get) → AreEach LendsGet gets.now asked
        → OnOk result (out.new ≡ out.old ++ answer_lines (columns_of schema.now) workers.old asked answers.now) }
{
    'answers: for i in 0..gets.len() {
        write_answer(alloc, schema, table, workers, &gets[i], &answers[i], out)?;
    }
    Ok(())
}
