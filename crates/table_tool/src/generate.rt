//! The command `gen`: a script that a number generates is printed, or loaded from memory without its answers.
ghost use Rattle.std.specs.Prelude.{ℕ, List, Option};
ghost use Rattle.outside.specs.Files.{Files};
ghost use Rattle.command_line.specs.Said.{AreRows};
ghost use Rattle.table_tool.specs.Generating.{GenEnds, PrintEnds, script_bytes};
ghost use Rattle.table_tool.specs.Outside.{outside_of};
ghost use Rattle.table_tool.specs.Request.{CanLoad, asked_of};

use crate::load::load_once;
use crate::request::{GenRequest, GeneratedScript};
use crate::saying::{print, refuse_or_end};
use crate::status::Status;
use key_types::NoMemory;
use outside::{Gate, NullSink, QuietSource, Sink, Store};
use script_text::rows_from;
use std::alloc::Global;
use std::thread::Threads;

/// Does `gen --print`.
pub fn print_script<O: Sink>(alloc: Global, script: GeneratedScript, out: &mut O) -> Status
    requires { AreRows script.count script.gets }
    ensures { (left : Option (List ℕ)) (faults : ℕ) (files : Option Files) (store_faults reads : ℕ) → PrintEnds script
        (outside_of left faults (O.written out.old) (O.faults out.old) files store_faults reads)
        (outside_of left faults (O.written out.new) (O.faults out.new) files store_faults reads) result }
{
    match rows_from(alloc, script.seed, script.count, script.gets) {
        Ok(text) => print(out, text.as_slice()),
        Err(NoMemory) => Status::NoMemory,
    }
}

/// Does `gen` without `--print`: what `load` does of the generated script, whose answers are dropped.
pub fn generate<R: Threads + Sync, O: Sink, K: Store, G: Gate>(
    rt: &R,
    alloc: Global,
    request: GenRequest,
    out: &mut O,
    store: &mut K,
    gate: &G,
) -> Status
    requires rows { AreRows request.script.count request.script.gets }
    requires can { CanLoad request.load }
    ensures { (left : Option (List ℕ)) (faults : ℕ) → GenEnds (script_bytes request.script) (asked_of request.load)
        (outside_of left faults (O.written out.old) (O.faults out.old) (K.files store.old) (K.faults store.old) (K.reads store.old))
        (outside_of left faults (O.written out.new) (O.faults out.new) (K.files store.new) (K.faults store.new) (K.reads store.new)) result }
{
    let GenRequest { script, load } = request;
    let Ok(bytes) = rows_from(alloc, script.seed, script.count, script.gets) else {
        return Status::NoMemory;
    };
    let mut source = QuietSource::new(bytes.into_vec());
    let mut answers = NullSink::new();
    match load_once(rt, alloc, load, &mut source, gate, &mut answers, store) {
        Ok(line) => print(out, line.as_slice()),
        Err(status) => refuse_or_end(alloc, out, status),
    }
}
