//! The command `get`: the value that the files have at a key.
ghost use Rattle.std.specs.Prelude.{ℕ, List, Option};
ghost use Rattle.table_tool.specs.Getting.{GetEnds};
ghost use Rattle.table_tool.specs.Outside.{outside_of};

use crate::first::FIRST_GENERATION;
use crate::saying::{print, refuse};
use crate::status::Status;
use get_tool::{GetError, show_value};
use outside::{Sink, Store};
use std::alloc::Global;

/// Does `get` of the key of this text.
pub fn get<O: Sink, K: Store>(alloc: Global, text: &str, out: &mut O, store: &mut K) -> Status
    ensures { (left : Option (List ℕ)) (faults : ℕ) → GetEnds text.now
        (outside_of left faults (O.written out.old) (O.faults out.old) (K.files store.old) (K.faults store.old) (K.reads store.old))
        (outside_of left faults (O.written out.new) (O.faults out.new) (K.files store.new) (K.faults store.new) (K.reads store.new)) result }
{
    match show_value(alloc, store, FIRST_GENERATION, text.as_bytes()) {
        Ok(line) => print(out, line.as_slice()),
        Err(GetError::Usage) => refuse(alloc, out, Status::Usage),
        Err(GetError::StoreFault) => refuse(alloc, out, Status::StoreFault),
        Err(GetError::Damaged(damage)) => refuse(alloc, out, Status::Damaged(damage)),
        Err(GetError::Unfinished) => refuse(alloc, out, Status::Unfinished),
        Err(GetError::NoMemory) => Status::NoMemory,
    }
}
