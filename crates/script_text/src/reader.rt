//! A script, read line by line: `read_script` is the call of the layers above.
ghost use Rattle.std.specs.Prelude.{◌≡◌, ◌≤◌, length};
ghost use Rattle.key_types.specs.Columns.{columns_of};
ghost use Rattle.script_text.specs.Meaning.{ReadsScript};
ghost use Rattle.script_text.specs.Script.{most_lines, most_readers, lines_from, script_by, script_of, AnswersScript};
ghost use Rattle.script_text.specs.Lines.{lines_of};

use crate::lines::{first_line, over};
use crate::progress::Progress;
use crate::script::{Script, ScriptError};
use key_types::Schema;
use std::alloc::Global;

/// The greatest length of a script, in bytes.
pub const MOST_BYTES: usize = 67_108_864;

/// The greatest count of lines of a script.
pub const MOST_LINES: usize = 1_000_000;

/// The greatest count of readers.
pub const MOST_READERS: u32 = 8;

/// The script of all lines.
fn read_lines(
    alloc: Global,
    schema: &Schema,
    readers: u32,
    bytes: &[u8],
) -> Result<Script, ScriptError>
    requires some { 1 ≤ readers }
    requires few { length (lines_of bytes.now) ≤ most_lines }
    ensures { AnswersScript result (script_by (lines_from (columns_of schema.now) readers 1 0 (lines_of bytes.now))) }
{
    let mut progress = Progress::new(alloc);
    let mut rest = bytes;
    'lines: while !rest.is_empty() {
        let (text, after) = first_line(rest);
        progress.take_line(alloc, schema, readers, text)?;
        rest = after;
    }
    Ok(progress.finish()?)
}

/// The script as it is computed of the bytes.
fn spell_script(
    alloc: Global,
    schema: &Schema,
    readers: u32,
    bytes: &[u8],
) -> Result<Script, ScriptError>
    requires { 1 ≤ readers }
    ensures { AnswersScript result (script_of (columns_of schema.now) readers bytes.now) }
{
    if bytes.len() > MOST_BYTES || over(MOST_LINES, bytes) {
        return Err(ScriptError::TooLarge);
    }
    read_lines(alloc, schema, readers, bytes)
}

/// Reads the script that the bytes spell, under the schema, for so many readers.
///
/// A line is `put`, a key, `=` and a value; or `get` and a key; or `sync`. A key is the components of a partition and
/// those of a row within it, or behind the partition the word `static` where the schema has a static type. Lines of
/// spaces alone and lines that begin with `--` are passed over. `sync` ends a batch, and so does the end of the bytes.
/// The script's gets go to its readers in turn. Refusals: `TooLarge` exactly with more than `MOST_BYTES` or
/// `MOST_LINES`, else `BadLine` exactly with the first line that isn't accepted and the first of its causes.
pub fn read_script(
    alloc: Global,
    schema: &Schema,
    readers: u32,
    bytes: &[u8],
) -> Result<Script, ScriptError>
    requires some { 1 ≤ readers }
    requires few { readers ≤ most_readers }
    ensures meaning { ReadsScript (columns_of schema.now) readers bytes.now result }
    ensures computed { AnswersScript result (script_of (columns_of schema.now) readers bytes.now) }
{
    spell_script(alloc, schema, readers, bytes)
}
