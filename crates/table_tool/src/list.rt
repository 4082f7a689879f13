//! The command `list`: the rows and static values of a script's puts.
ghost use Rattle.std.specs.Prelude.{◌≡◌, ◌≤◌, [], ℕ, Option, IfOk, IfErr, IfSome, Err};
ghost use Rattle.outside.specs.Causes.{Rose};
ghost use Rattle.outside.specs.Files.{Files};
ghost use Rattle.key_types.specs.Columns.{columns_of};
ghost use Rattle.script_text.specs.Script.{puts_of};
ghost use Rattle.script_run.specs.Runs.{HasRoom, IsFullAt};
ghost use Rattle.table_tool.specs.Rows.{rows_of};
ghost use Rattle.row_text.specs.Printed.{rows_text};
ghost use Rattle.table_tool.specs.Input.{EndsEarly, IsSpelled};
ghost use Rattle.table_tool.specs.Listing.{listing, FillsShard, FitsShard, GivesOrFault, ListEnds, StopsList};
ghost use Rattle.table_tool.specs.Outside.{outside_of};

use crate::input::take_script;
use crate::printing::print_rows;
use crate::saying::{print, refuse};
use crate::status::Status;
use key_types::{ByteList, NoMemory, Schema};
use outside::{Sink, Source};
use script_run::{RunError, fill_shard};
use script_text::Script;
use std::alloc::Global;

/// The text of the entries that the puts of a script leave in a shard of so many cells.
fn list_puts(
    alloc: Global,
    schema: &Schema,
    script: &Script,
    cells: u32,
) -> Result<ByteList, RunError>
    requires spelled { IsSpelled (columns_of schema.now) 1 script.now }
    requires least { 1024 ≤ cells }
    requires most { cells ≤ 4194304 }
    ensures text { IfOk result (λ text. text ≡ rows_text (columns_of schema.now) (rows_of (puts_of script.now.batches))) }
    ensures full { (line : ℕ) → result ≡ Err (RunError.Full line) → IsFullAt cells [] [] (puts_of script.now.batches) 0 line }
    ensures room { HasRoom cells [] (puts_of script.now.batches) → (line : ℕ) → result ≡ Err (RunError.Full line) → ⊥ }
    ensures sink { ¬ (result ≡ Err RunError.SinkFault) }
{
    let table = fill_shard(alloc, script.batches.as_slice(), cells)?;
    Ok(print_rows(alloc, schema, &table)?)
}

/// The text that is printed for the script of the source.
fn list_source<S: Source>(
    alloc: Global,
    schema: &Schema,
    cells: u32,
    source: &mut S,
) -> Result<ByteList, Status>
    requires least { 1024 ≤ cells }
    requires most { cells ≤ 4194304 }
    ensures told { IfSome (S.left source.old) (λ bytes. GivesOrFault result (listing (columns_of schema.now) bytes)) }
    ensures full { IfSome (S.left source.old) (λ bytes. (line : ℕ) → result ≡ Err (Status.Full line) → FillsShard cells (columns_of schema.now) bytes line) }
    ensures room { IfSome (S.left source.old) (λ bytes. FitsShard cells (columns_of schema.now) bytes → (line : ℕ) → result ≡ Err (Status.Full line) → ⊥) }
    ensures later { S.faults source.old ≤ S.faults source.new }
    ensures fault { result ≡ Err Status.SourceFault → Rose (S.faults source.old) (S.faults source.new) }
    ensures stops { IfErr result StopsList }
{
    let script = match take_script(alloc, schema, 1, source) {
        Ok(script) => script,
        Err(status) => return Err(status),
    };
    match list_puts(alloc, schema, &script, cells) {
        Ok(text) => Ok(text),
        Err(RunError::Full(line)) => Err(Status::Full(line)),
        // no answer is printed
        Err(RunError::SinkFault) => Err(Status::NoMemory),
        Err(RunError::NoMemory) => Err(Status::NoMemory),
    }
}

/// Does `list`, in a shard of so many cells.
pub fn list<S: Source, O: Sink>(
    alloc: Global,
    schema: &Schema,
    cells: u32,
    source: &mut S,
    out: &mut O,
) -> Status
    requires least { 1024 ≤ cells }
    requires most { cells ≤ 4194304 }
    ensures { (files : Option Files) (faults reads : ℕ) → ListEnds (columns_of schema.now) cells
        (outside_of (S.left source.old) (S.faults source.old) (O.written out.old) (O.faults out.old) files faults reads)
        (outside_of (S.left source.new) (S.faults source.new) (O.written out.new) (O.faults out.new) files faults reads) result }
{
    match list_source(alloc, schema, cells, source) {
        Ok(text) => print(out, text.as_slice()),
        Err(Status::NoMemory) => Status::NoMemory,
        Err(status) => refuse(alloc, out, status),
    }
}
