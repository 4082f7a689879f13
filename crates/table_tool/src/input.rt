//! The whole input, and its script.
ghost use Rattle.std.specs.Prelude.{◌≡◌, ◌<◌, ◌≤◌, length, IfOk, IfErr, IfSome, Err};
ghost use Rattle.outside.specs.Causes.{Rose};
ghost use Rattle.key_types.specs.Columns.{columns_of};
ghost use Rattle.script_text.specs.Script.{script_of};
ghost use Rattle.table_tool.specs.Input.{EndsEarly, IsSpelled, ReadIs, TakesScript};

use crate::status::Status;
use key_types::{ByteList, NoMemory, Schema};
use outside::{Failed, PAGE, Source};
use script_text::{MOST_BYTES, Script, ScriptError, read_script};
use std::alloc::Global;

/// Why an input isn't read.
#[derive(Clone, Copy, Debug, PartialEq, Eq)]
pub enum InputError {
    Fault,
    TooLarge,
    NoMemory,
}

impl From<NoMemory> for InputError {
    ghost use Rattle.table_tool.specs.declared.input.InputError.TheVariants as input_error;

    ghost from_gives = { λ _ e. e ≡ input_error.NoMemory };

    fn from(_e: NoMemory) -> InputError {
        InputError::NoMemory
    }
}

/// All the bytes of the source, read to its end or past the greatest length of a script.
pub fn read_all<S: Source>(alloc: Global, source: &mut S) -> Result<ByteList, InputError>
    ensures told { IfSome (S.left source.old) (ReadIs result) }
    ensures later { S.faults source.old ≤ S.faults source.new }
    ensures fault { result ≡ Err InputError.Fault → Rose (S.faults source.old) (S.faults source.new) }
{
    let mut all = ByteList::new(alloc);
    let mut page = [0u8; PAGE];
    'pages: loop {
        let count = match source.pull(&mut page) {
            Ok(count) => count,
            Err(Failed) => return Err(InputError::Fault),
        };
        if count == 0 {
            return Ok(all);
        }
        all.extend(&page[..count])?;
        if all.len() > MOST_BYTES {
            return Err(InputError::TooLarge);
        }
    }
}

/// The script of the source's bytes, for so many readers, or the status of its refusal.
pub fn take_script<S: Source>(
    alloc: Global,
    schema: &Schema,
    readers: u32,
    source: &mut S,
) -> Result<Script, Status>
    requires some { 1 ≤ readers }
    requires few { readers ≤ 8 }
    ensures told { IfSome (S.left source.old) (λ bytes. TakesScript result (script_of (columns_of schema.now) readers bytes)) }
    ensures spelled { IfOk result (IsSpelled (columns_of schema.now) readers) }
    ensures early { IfErr result EndsEarly }
    ensures later { S.faults source.old ≤ S.faults source.new }
    ensures fault { result ≡ Err Status.SourceFault → Rose (S.faults source.old) (S.faults source.new) }
{
    match read_all(alloc, source) {
        Ok(bytes) => match read_script(alloc, schema, readers, bytes.as_slice()) {
            Ok(script) => Ok(script),
            Err(ScriptError::BadLine(line, cause)) => Err(Status::BadLine(line, cause)),
            Err(ScriptError::TooLarge) => Err(Status::TooLarge),
            Err(ScriptError::NoMemory) => Err(Status::NoMemory),
        },
        Err(InputError::Fault) => Err(Status::SourceFault),
        Err(InputError::TooLarge) => Err(Status::TooLarge),
        Err(InputError::NoMemory) => Err(Status::NoMemory),
    }
}
