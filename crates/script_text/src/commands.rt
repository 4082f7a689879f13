//! Lines that say something, read from the front of bytes: the reader of lines calls it for each.
//!
//! The strings of keys and the values are put behind one another into a buffer while they are read. What stood in the
//! buffer before always stays; after a stop it may have a part of the line behind it.
ghost use Rattle.std.specs.Prelude.{◌≡◌, ◌≤◌, ℕ, List, Option, ⊤, length, codes};
ghost use Rattle.grammar.specs.Code.{Gives};
ghost use Rattle.grammar.specs.Reading.{ends};
ghost use Rattle.key_types.specs.Columns.{Columns, columns_of};
ghost use Rattle.key_text.specs.Marking.{marked_at};
ghost use Rattle.key_text.specs.Reading.{closed_read, quoted_text_at, blob_at};
ghost use Rattle.script_text.specs.Grammar.{value_kind, sync_text};
ghost use Rattle.script_text.specs.Reading.{any_byte, line_end_at, set_at, asked_at, row_rest_at, static_at, rest_by, verb_at, sync_said_at, command_at, whole_line};
ghost use Rattle.script_text.specs.Parts.{GivesBytes, GivesBehind, GivesWith, GivesWhole, PutsValue, PutsRest, PutsAsked, PutsSet, PutsGet, PutsSaid};

use grammar::{Stop, read_sign, read_word, skip_spaces};
use key_spelling::spell_list;
use key_text::{plain_text, read_closed_blob, read_closed_text};
use key_types::{ByteList, Schema, ValueType};
use std::alloc::Global;

/// Where the strings of a key end in the buffer.
#[derive(Clone, Copy)]
pub struct KeyEnds {
    /// The end of the partition's string.
    pub partition: usize,
    /// The end of the string within the partition, behind that.
    pub clustering: usize,
}

/// What a line says.
#[derive(Clone, Copy)]
pub enum Command {
    /// It puts: its value is what stands in the buffer behind the key.
    Put(KeyEnds),
    /// It asks for a key.
    Get(KeyEnds),
    /// It ends a batch.
    Sync,
}

/// Puts a text behind what is there.
fn read_text<'a>(alloc: Global, bytes: &'a [u8], out: &mut ByteList) -> Result<&'a [u8], Stop>
    ensures { GivesBytes out.old out.new result (closed_read quoted_text_at bytes.now) }
{
    if let Some((text, rest)) = plain_text(bytes) {
        out.extend(text)?;
        return Ok(rest);
    }
    let (text, rest) = read_closed_text(alloc, bytes)?;
    out.extend(text.as_slice())?;
    Ok(rest)
}

/// Puts a blob behind what is there.
fn read_blob<'a>(alloc: Global, bytes: &'a [u8], out: &mut ByteList) -> Result<&'a [u8], Stop>
    ensures { GivesBytes out.old out.new result (closed_read blob_at bytes.now) }
{
    let (blob, rest) = read_closed_blob(alloc, bytes)?;
    out.extend(blob.as_slice())?;
    Ok(rest)
}

/// Puts a value of the type behind what is there.
fn read_value<'a>(
    alloc: Global,
    kind: ValueType,
    bytes: &'a [u8],
    out: &mut ByteList,
) -> Result<&'a [u8], Stop>
    ensures { (mark : Option ℕ) → GivesBehind (PutsValue out.old out.new) mark result (marked_at (value_kind kind) mark bytes.now) }
{
    match kind {
        ValueType::Text => read_text(alloc, bytes, out),
        ValueType::Blob => read_blob(alloc, bytes, out),
    }
}

/// An equals sign and a value of the type.
fn read_set<'a>(
    alloc: Global,
    kind: ValueType,
    bytes: &'a [u8],
    out: &mut ByteList,
) -> Result<&'a [u8], Stop>
    ensures { (mark : Option ℕ) → GivesBehind (PutsValue out.old out.new) mark result (set_at kind mark bytes.now) }
{
    let rest = read_sign(b'=', bytes)?;
    read_value(alloc, kind, rest, out)
}

/// The components of a row, and what it is set to: where the row's string ends, and the bytes behind.
fn read_row<'a>(
    alloc: Global,
    schema: &Schema,
    out_of_range: &mut Option<usize>,
    bytes: &'a [u8],
    out: &mut ByteList,
) -> Result<(usize, &'a [u8]), Stop>
    ensures { GivesWith (PutsRest (columns_of schema.now) out.old out.new) out_of_range.new result
        (row_rest_at (columns_of schema.now) set_at out_of_range.old bytes.now) }
{
    let rest = spell_list(alloc, &schema.clustering, out_of_range, bytes, out)?;
    let end = out.len();
    let rest = read_set(alloc, schema.value, rest, out)?;
    Ok((end, rest))
}

/// The word `static`, and what the static value is set to.
fn read_static<'a>(
    alloc: Global,
    kind: ValueType,
    bytes: &'a [u8],
    out: &mut ByteList,
) -> Result<(usize, &'a [u8]), Stop>
    ensures { (columns : Columns) (mark : Option ℕ)
        → GivesWith (PutsRest columns out.old out.new) mark result (static_at columns set_at kind mark bytes.now) }
{
    let (_, rest) = read_word(b"static", bytes)?;
    let end = out.len();
    let rest = read_set(alloc, kind, rest, out)?;
    Ok((end, rest))
}

/// What stands behind the components of the partition in a put.
fn read_rest<'a>(
    alloc: Global,
    schema: &Schema,
    out_of_range: &mut Option<usize>,
    bytes: &'a [u8],
    out: &mut ByteList,
) -> Result<(usize, &'a [u8]), Stop>
    ensures { GivesWith (PutsRest (columns_of schema.now) out.old out.new) out_of_range.new result
        (rest_by (columns_of schema.now) set_at schema.now.static_value out_of_range.old bytes.now) }
{
    match (schema.static_value, bytes) {
        (Some(kind), [byte, ..]) if *byte != b'(' => read_static(alloc, kind, bytes, out),
        _ => read_row(alloc, schema, out_of_range, bytes, out),
    }
}

/// The word `put`, a key, and what it is set to.
fn read_put<'a>(
    alloc: Global,
    schema: &Schema,
    out_of_range: &mut Option<usize>,
    bytes: &'a [u8],
    out: &mut ByteList,
) -> Result<(KeyEnds, &'a [u8]), Stop>
    ensures { GivesWith (PutsSet (columns_of schema.now) out.old out.new) out_of_range.new result
        (verb_at (columns_of schema.now) set_at (codes "put") out_of_range.old bytes.now) }
{
    let (_, rest) = read_word(b"put", bytes)?;
    let rest = spell_list(alloc, &schema.partition, out_of_range, rest, out)?;
    let partition = out.len();
    let (clustering, rest) = read_rest(alloc, schema, out_of_range, rest, out)?;
    Ok((
        KeyEnds {
            partition,
            clustering,
        },
        rest,
    ))
}

/// The end of the line.
fn read_end(bytes: &[u8]) -> Result<&[u8], Stop>
    ensures { Gives (λ rest. (tt, rest.now)) result (line_end_at bytes.now) }
{
    match bytes {
        [] => Ok(bytes),
        _ => Err(Stop::At(bytes.len())),
    }
}

/// The components of a row, and then the end of the line.
fn read_asked_row<'a>(
    alloc: Global,
    schema: &Schema,
    out_of_range: &mut Option<usize>,
    bytes: &'a [u8],
    out: &mut ByteList,
) -> Result<&'a [u8], Stop>
    ensures { GivesBehind (PutsAsked (columns_of schema.now) out.old out.new) out_of_range.new result
        (row_rest_at (columns_of schema.now) asked_at out_of_range.old bytes.now) }
{
    let rest = spell_list(alloc, &schema.clustering, out_of_range, bytes, out)?;
    read_end(rest)
}

/// The word `static`, and then the end of the line.
fn read_asked_static(bytes: &[u8]) -> Result<&[u8], Stop>
    ensures { (columns : Columns) (kind : ValueType) (mark : Option ℕ) (out : List ℕ)
        → GivesBehind (PutsAsked columns out out) mark result (static_at columns asked_at kind mark bytes.now) }
{
    let (_, rest) = read_word(b"static", bytes)?;
    read_end(rest)
}

/// What stands behind the components of the partition in a get.
fn read_asked<'a>(
    alloc: Global,
    schema: &Schema,
    out_of_range: &mut Option<usize>,
    bytes: &'a [u8],
    out: &mut ByteList,
) -> Result<&'a [u8], Stop>
    ensures { GivesBehind (PutsAsked (columns_of schema.now) out.old out.new) out_of_range.new result
        (rest_by (columns_of schema.now) asked_at schema.now.static_value out_of_range.old bytes.now) }
{
    match (schema.static_value, bytes) {
        (Some(_), [byte, ..]) if *byte != b'(' => read_asked_static(bytes),
        _ => read_asked_row(alloc, schema, out_of_range, bytes, out),
    }
}

/// The word `get` and a key.
fn read_get<'a>(
    alloc: Global,
    schema: &Schema,
    out_of_range: &mut Option<usize>,
    bytes: &'a [u8],
    out: &mut ByteList,
) -> Result<(KeyEnds, &'a [u8]), Stop>
    ensures { GivesWith (PutsGet (columns_of schema.now) out.old out.new) out_of_range.new result
        (verb_at (columns_of schema.now) asked_at (codes "get") out_of_range.old bytes.now) }
{
    let (_, rest) = read_word(b"get", bytes)?;
    let rest = spell_list(alloc, &schema.partition, out_of_range, rest, out)?;
    let partition = out.len();
    let rest = read_asked(alloc, schema, out_of_range, rest, out)?;
    let clustering = out.len();
    Ok((
        KeyEnds {
            partition,
            clustering,
        },
        rest,
    ))
}

/// The word `sync`, and then the end of the line.
fn read_sync(bytes: &[u8]) -> Result<&[u8], Stop>
    ensures { (mark : Option ℕ) → Gives (λ rest. ((sync_text, mark), rest.now)) result (sync_said_at mark bytes.now) }
{
    let (_, rest) = read_word(b"sync", bytes)?;
    read_end(rest)
}

/// What a line says, without spaces before it. The first number that passes its type is marked by how many bytes are
/// left where it begins.
fn read_command<'a>(
    alloc: Global,
    schema: &Schema,
    out_of_range: &mut Option<usize>,
    bytes: &'a [u8],
    out: &mut ByteList,
) -> Result<(Command, &'a [u8]), Stop>
    ensures { GivesWith (PutsSaid (columns_of schema.now) out.old out.new) out_of_range.new result
        (command_at (columns_of schema.now) out_of_range.old bytes.now) }
{
    match bytes {
        [] => Err(Stop::At(0)),
        [b'p', ..] => {
            let (ends, rest) = read_put(alloc, schema, out_of_range, bytes, out)?;
            Ok((Command::Put(ends), rest))
        }
        [b'g', ..] => {
            let (ends, rest) = read_get(alloc, schema, out_of_range, bytes, out)?;
            Ok((Command::Get(ends), rest))
        }
        _ => {
            let rest = read_sync(bytes)?;
            Ok((Command::Sync, rest))
        }
    }
}

/// What a whole line says, and how many bytes are left where its first number begins that passes its type.
pub fn read_whole(
    alloc: Global,
    schema: &Schema,
    line: &[u8],
    out: &mut ByteList,
) -> Result<(Command, Option<usize>), Stop>
    ensures { GivesWhole (PutsSaid (columns_of schema.now) out.old out.new) result (whole_line (columns_of schema.now) line.now) }
{
    let mut out_of_range = None;
    let (command, rest) = read_command(alloc, schema, &mut out_of_range, skip_spaces(line), out)?;
    match rest {
        [] => Ok((command, out_of_range)),
        _ => Err(Stop::At(rest.len())),
    }
}
