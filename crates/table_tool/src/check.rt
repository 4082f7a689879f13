//! The command `check`: whether the files stand for a map. `run_query` calls it.
ghost use Rattle.std.specs.Prelude.{◌≡◌, ℕ, List, Option, IfOk};
ghost use Rattle.table_tool.specs.Checking.{CheckEnds, sound_line};
ghost use Rattle.table_tool.specs.Outside.{outside_of};

use crate::first::FIRST_GENERATION;
use crate::saying::{print, refuse};
use crate::status::Status;
use data_file::Counts;
use key_types::{ByteList, NoMemory};
use outside::{Sink, Store};
use row_text::put_number;
use std::alloc::Global;
use table_check::Verdict;
use table_reader::TableFault;

/// The line of files that stand for a map, which has so many partitions and rows.
fn sound_line(alloc: Global, counts: Counts) -> Result<ByteList, NoMemory>
    ensures { IfOk result (λ line. line ≡ sound_line counts) }
{
    let mut line = ByteList::new(alloc);
    put_number(&mut line, b"sound partitions ", counts.partitions)?;
    put_number(&mut line, b" rows ", counts.rows)?;
    line.push(b'\n')?;
    Ok(line)
}

/// Does `check`.
pub fn check<O: Sink, K: Store>(alloc: Global, out: &mut O, store: &mut K) -> Status
    ensures { (left : Option (List ℕ)) (faults : ℕ) → CheckEnds
        (outside_of left faults (O.written out.old) (O.faults out.old) (K.files store.old) (K.faults store.old) (K.reads store.old))
        (outside_of left faults (O.written out.new) (O.faults out.new) (K.files store.new) (K.faults store.new) (K.reads store.new)) result }
{
    match table_check::check(alloc, store, FIRST_GENERATION) {
        Ok(Verdict::Sound(counts)) => match sound_line(alloc, counts) {
            Ok(line) => print(out, line.as_slice()),
            Err(NoMemory) => Status::NoMemory,
        },
        Ok(Verdict::Unsound(mismatch)) => refuse(alloc, out, Status::Unsound(mismatch)),
        Err(TableFault::StoreFault) => refuse(alloc, out, Status::StoreFault),
        Err(TableFault::Damaged(damage)) => refuse(alloc, out, Status::Damaged(damage)),
        Err(TableFault::Unfinished) => refuse(alloc, out, Status::Unfinished),
        Err(TableFault::NoMemory) => Status::NoMemory,
    }
}
