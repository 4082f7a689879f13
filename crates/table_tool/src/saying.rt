//! What a command pushes: texts, and the lines of refusals.
ghost use Rattle.std.specs.Prelude.{◌≡◌, ◌≤◌, ◌⊎◌};
ghost use Rattle.outside.specs.Told.{WhereTold};
ghost use Rattle.outside.specs.Causes.{Rose};
ghost use Rattle.table_tool.specs.Outcome.{SaysRefusal, PrintsText, IsOrNoMemory, IsRefusal};

use crate::fault_line::fault_line;
use crate::status::Status;
use outside::{Failed, Sink};
use std::alloc::Global;

/// Pushes the line of a refusal, and answers its status.
pub fn refuse<O: Sink>(alloc: Global, out: &mut O, status: Status) -> Status
    requires { IsRefusal status }
    ensures status { IsOrNoMemory status result }
    ensures told { WhereTold (O.written out.old) (O.written out.new) (SaysRefusal result (O.faults out.old) (O.faults out.new)) }
    ensures later { O.faults out.old ≤ O.faults out.new }
{
    let Ok(line) = fault_line(alloc, status) else {
        return Status::NoMemory;
    };
    match out.push(line.as_slice()) {
        Ok(()) | Err(Failed) => status,
    }
}

/// Pushes the line of a refusal, where the status is one, and answers the status.
pub fn refuse_or_end<O: Sink>(alloc: Global, out: &mut O, status: Status) -> Status
    requires { IsRefusal status ⊎ status ≡ Status.NoMemory }
    ensures status { IsOrNoMemory status result }
    ensures told { WhereTold (O.written out.old) (O.written out.new) (SaysRefusal result (O.faults out.old) (O.faults out.new)) }
    ensures later { O.faults out.old ≤ O.faults out.new }
{
    match status {
        Status::NoMemory => Status::NoMemory,
        status => refuse(alloc, out, status),
    }
}

/// Pushes a text, and answers Ok or a fault of the sink.
pub fn print<O: Sink>(out: &mut O, text: &[u8]) -> Status
    ensures cases { result ≡ Status.Ok ⊎ result ≡ Status.SinkFault }
    ensures told { WhereTold (O.written out.old) (O.written out.new) (PrintsText text.now result) }
    ensures later { O.faults out.old ≤ O.faults out.new }
    ensures fault { result ≡ Status.SinkFault → Rose (O.faults out.old) (O.faults out.new) }
{
    match out.push(text) {
        Ok(()) => Status::Ok,
        Err(Failed) => Status::SinkFault,
    }
}
