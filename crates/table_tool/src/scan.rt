//! The command `scan`: the rows and static values that the files have between two bounds.
ghost use Rattle.std.specs.Prelude.{◌≡◌, ℕ, List, Option, option_map};
ghost use Rattle.std.specs.Option.{option_copied};
ghost use Rattle.std.specs.String.{string_bytes};
ghost use Rattle.table_tool.specs.Outside.{outside_of};
ghost use Rattle.table_tool.specs.Scanning.{ScanEnds};

use crate::first::FIRST_GENERATION;
use crate::saying::refuse;
use crate::status::Status;
use command_line::ScanArguments;
use outside::{Sink, Store};
use scan_tool::{ScanError, print_range};
use std::alloc::Global;

/// The bytes of a text, where it is there.
fn bytes_of(text: &Option<String>) -> Option<&[u8]>
    ensures { option_copied result ≡ option_map string_bytes text.now }
{
    match text {
        Some(text) => Some(text.as_str().as_bytes()),
        None => None,
    }
}

/// Does `scan` between the bounds of these texts, each there or not.
pub fn scan<O: Sink, K: Store>(
    alloc: Global,
    bounds: &ScanArguments,
    out: &mut O,
    store: &mut K,
) -> Status
    ensures { (left : Option (List ℕ)) (faults : ℕ) →
        ScanEnds (option_map string_bytes bounds.now.from) (option_map string_bytes bounds.now.to)
        (outside_of left faults (O.written out.old) (O.faults out.old) (K.files store.old) (K.faults store.old) (K.reads store.old))
        (outside_of left faults (O.written out.new) (O.faults out.new) (K.files store.new) (K.faults store.new) (K.reads store.new)) result }
{
    let from = bytes_of(&bounds.from);
    let to = bytes_of(&bounds.to);
    match print_range(alloc, out, store, FIRST_GENERATION, from, to) {
        Ok(()) => Status::Ok,
        Err(ScanError::Usage) => refuse(alloc, out, Status::Usage),
        Err(ScanError::SinkFault) => Status::SinkFault,
        Err(ScanError::StoreFault) => refuse(alloc, out, Status::StoreFault),
        Err(ScanError::Damaged(damage)) => refuse(alloc, out, Status::Damaged(damage)),
        Err(ScanError::Unfinished) => refuse(alloc, out, Status::Unfinished),
        Err(ScanError::NoMemory) => Status::NoMemory,
    }
}
