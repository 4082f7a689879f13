//! What a line of UTF-8 says: nothing, or what is read of it, or why it isn't accepted.
ghost use Rattle.std.specs.Prelude.{◌≡◌};
ghost use Rattle.key_types.specs.Columns.{columns_of};
ghost use Rattle.script_text.specs.Reading.{is_comment, is_blank, line_of};
ghost use Rattle.script_text.specs.Script.{at_line};
ghost use Rattle.script_text.specs.Parts.{SeesLine};

use crate::commands::{Command, read_whole};
use crate::script::{LineCause, ScriptError};
use grammar::Stop;
use key_types::{ByteList, Schema};
use std::alloc::Global;

/// Whether the line is a comment: two dashes, and anything behind them.
fn is_comment(line: &[u8]) -> bool
    ensures { result ≡ is_comment line.now }
{
    matches!(line, [b'-', b'-', ..])
}

/// Whether the line has nothing but spaces.
fn is_blank(line: &[u8]) -> bool
    ensures { result ≡ is_blank line.now }
{
    let mut rest = line;
    'spaces: while let [b' ', after @ ..] = rest {
        rest = after;
    }
    rest.is_empty()
}

/// What the line with this number says, where it says something; its strings and its value are put behind what is in
/// the buffer.
pub fn read_line(
    alloc: Global,
    schema: &Schema,
    line: u32,
    text: &[u8],
    out: &mut ByteList,
) -> Result<Option<Command>, ScriptError>
    ensures { SeesLine (columns_of schema.now) out.old out.new result (at_line line (line_of (columns_of schema.now) text.now)) }
{
    if is_comment(text) || is_blank(text) {
        return Ok(None);
    }
    if let [b'-', ..] = text {
        return Err(ScriptError::BadLine(line, LineCause::BadText(1)));
    }
    match read_whole(alloc, schema, text, out) {
        Ok((command, None)) => Ok(Some(command)),
        Ok((_, Some(left))) => {
            Err(ScriptError::BadLine(line, LineCause::OutOfRange(text.len() - left)))
        }
        Err(Stop::Memory) => Err(ScriptError::NoMemory),
        Err(Stop::At(left)) => {
            Err(ScriptError::BadLine(line, LineCause::BadText(text.len() - left)))
        }
    }
}
