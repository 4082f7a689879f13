//! What the workers of a batch left, taken back from the first worker to the last.

ghost use Rattle.std.specs.Prelude.{◌≡◌, IfOk};
ghost use Rattle.load_work.specs.Deal.{earlier_line, HasNext, IsNextDone, TakesNext};
ghost use Rattle.load_work.specs.Deal.{HasWriters, WritersLeft, TakesWriters, HasReaders, ReadersLeft};

use crate::batch::Answer;
use crate::jobs::Done;
use key_types::NoMemory;
use std::alloc::Global;
use trie_rule::{ReadSeat, WriteSeat};

/// What the jobs left, and a place for each worker: one that had no job has in it what it left.
#[derive(Drop)]
pub(crate) struct Left {
    pub(crate) done: Vec<Done>,
    pub(crate) places: Vec<Option<Done>>,
}

/// The lesser of two lines, where there are two.
fn earlier(first: Option<u32>, line: Option<u32>) -> Option<u32>
    ensures { result ≡ earlier_line first line }
{
    match (first, line) {
        (Some(a), Some(b)) => Some(a.min(b)),
        (None, b) => b,
        (a, None) => a,
    }
}

impl Left {
    /// What the next worker left.
    fn next_done(&mut self) -> Done
        requires { HasNext self.old.done.items self.old.places.items }
        ensures run { IsNextDone self.old.done.items self.old.places.items result }
        ensures left { TakesNext self.old.done.items self.old.places.items self.new.done.items self.new.places.items }
    {
        match self.places.pop() {
            Some(Some(done)) => done,
            Some(None) => match self.done.pop() {
                Some(done) => done,
                None => unreachable!(),
            },
            None => unreachable!(),
        }
    }

    /// The writers' seats, and the first line for which one of them had no room.
    pub(crate) fn take_writers(
        &mut self,
        alloc: Global,
        count: usize,
    ) -> Result<(Vec<WriteSeat>, Option<u32>), NoMemory>
        requires { HasWriters count self.old.done.items self.old.places.items }
        ensures written { IfOk result (λ taken.
            WritersLeft count self.old.done.items self.old.places.items taken.0.items taken.1) }
        ensures left { IfOk result (λ _. TakesWriters count
            self.old.done.items self.old.places.items self.new.done.items self.new.places.items) }
    {
        let mut writers = Vec::new(alloc);
        let mut first = None;
        'writers: for _ in 0..count {
            match self.next_done() {
                Done::Wrote(seat, full) => {
                    writers.push(seat)?;
                    first = earlier(first, full);
                }
                Done::HasRead(_, _) => unreachable!(),
            }
        }
        Ok((writers, first))
    }

    /// The readers' seats, and the answers of each.
    pub(crate) fn take_readers(
        &mut self,
        alloc: Global,
        count: usize,
    ) -> Result<(Vec<Vec<ReadSeat>>, Vec<Vec<Answer>>), NoMemory>
        requires { HasReaders count self.old.done.items self.old.places.items }
        ensures { IfOk result (λ taken.
            ReadersLeft count self.old.done.items self.old.places.items taken.0.items taken.1.items) }
    {
        let mut readers = Vec::new(alloc);
        let mut lists = Vec::new(alloc);
        'readers: for _ in 0..count {
            match self.next_done() {
                Done::HasRead(seats, answers) => {
                    readers.push(seats)?;
                    lists.push(answers?)?;
                }
                Done::Wrote(_, _) => unreachable!(),
            }
        }
        Ok((readers, lists))
    }
}
