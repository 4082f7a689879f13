//! The command `key`: the string of a key's components, or the components of a string.
ghost use Rattle.std.specs.Prelude.{ℕ, List, Option};
ghost use Rattle.std.specs.String.{string_bytes};
ghost use Rattle.outside.specs.Files.{Files};
ghost use Rattle.key_tool.specs.Shown.{kinds_in};
ghost use Rattle.table_tool.specs.Keys.{KeyEnds};
ghost use Rattle.table_tool.specs.Outside.{outside_of};

use crate::request::KeyRequest;
use crate::saying::{print, refuse};
use crate::status::Status;
use key_tool::{KeyFault, show_key};
use outside::Sink;
use std::alloc::Global;

/// Does `key`.
pub fn key<O: Sink>(alloc: Global, request: &KeyRequest, out: &mut O) -> Status
    ensures { (left : Option (List ℕ)) (faults : ℕ) (files : Option Files) (store_faults reads : ℕ) →
        KeyEnds (kinds_in request.now.part request.now.schema) request.now.way (string_bytes request.now.text)
        (outside_of left faults (O.written out.old) (O.faults out.old) files store_faults reads)
        (outside_of left faults (O.written out.new) (O.faults out.new) files store_faults reads) result }
{
    let text = request.text.as_str();
    match show_key(alloc, &request.schema, request.part, request.way, text) {
        Ok(line) => print(out, line.as_slice()),
        Err(KeyFault::Refused) => refuse(alloc, out, Status::Key),
        Err(KeyFault::NoMemory) => Status::NoMemory,
    }
}
