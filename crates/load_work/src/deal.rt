//! The seats of a table's workers, dealt out from the last worker to the first: one with something to do gets a job.

ghost use Rattle.std.specs.Prelude.{◌≡◌, ◌≤◌, [], ◌∷◌, ◌++◌, true, false, IfOk, List, All, vec_len, length};
ghost use Rattle.shard_table.specs.Seats.{TableAt, AreEach, AreWorkers, IsFreeWriter, IsFreeReader};
ghost use Rattle.script_text.specs.declared.spans.PutLine.{PutLine};
ghost use Rattle.script_text.specs.declared.spans.GetLine.{GetLine};
ghost use Rattle.load_work.specs.declared.jobs.Job.{Job};
ghost use Rattle.load_work.specs.Puts.{puts_of};
ghost use Rattle.load_work.specs.Reads.{gets_of};
ghost use Rattle.load_work.specs.Jobs.{CanRun, HasRun};
ghost use Rattle.load_work.specs.Deal.{IsDealt, DealsJob, DealsDone, DealsReaders, DealsWriters, jobs_of};

use crate::jobs::{Done, Job};
use key_types::NoMemory;
use script_text::{GetLine, PutLine};
use shard_table::{ShardTable, Workers};
use std::alloc::Global;
use std::mem;
use trie_rule::{ReadSeat, WriteSeat};

/// The jobs of the workers that have something to do, and a place for each worker. One that has nothing to do has in
/// its place at once what it leaves.
#[derive(Drop)]
pub(crate) struct Dealt {
    pub(crate) jobs: Vec<Job>,
    pub(crate) places: Vec<Option<Done>>,
}

/// Whether a put goes to the shard.
fn has_puts(table: &ShardTable, puts: &[PutLine], shard: usize) -> bool
    ensures { result ≡ false → puts_of table.now.bounds shard puts.now ≡ [] }
{
    'puts: for put in puts {
        if table.shard_of(put.partition) == shard {
            return true;
        }
    }
    false
}

/// Whether a get is of this reader.
fn has_gets(gets: &[GetLine], reader: u32) -> bool
    ensures { result ≡ false → gets_of reader gets.now ≡ [] }
{
    'gets: for get in gets {
        if get.reader == reader {
            return true;
        }
    }
    false
}

impl Dealt {
    /// Deals all workers, whose seats go out of the table's workers.
    pub(crate) fn of(
        alloc: Global,
        table: &ShardTable,
        puts: &[PutLine],
        gets: &[GetLine],
        workers: &mut Workers,
    ) -> Result<Dealt, NoMemory>
        requires few { length table.now.shards ≤ 8 }
        requires eight { vec_len workers.old.readers ≤ 8 }
        requires workers { AreWorkers table.now.shards workers.old }
        ensures { IfOk result (λ dealt.
            IsDealt table.now puts.now gets.now (jobs_of workers.old) dealt.jobs.items dealt.places.items) }
    {
        let writers = mem::replace(&mut workers.writers, Vec::new(alloc));
        let readers = mem::replace(&mut workers.readers, Vec::new(alloc));
        let mut dealt = Dealt::new(alloc);
        dealt.deal_readers(alloc, gets, readers)?;
        dealt.deal_writers(table, puts, writers)?;
        Ok(dealt)
    }

    fn new(alloc: Global) -> Dealt
        ensures jobs { result.jobs.items ≡ [] }
        ensures places { result.places.items ≡ [] }
    {
        Dealt {
            jobs: Vec::new(alloc),
            places: Vec::new(alloc),
        }
    }

    /// A worker's job, for a thread.
    fn deal(&mut self, job: Job) -> Result<(), NoMemory>
        ensures { IfOk result (λ _.
            DealsJob job self.old.jobs.items self.old.places.items self.new.jobs.items self.new.places.items) }
    {
        self.places.push(None)?;
        self.jobs.push(job)?;
        Ok(())
    }

    /// What a worker leaves that has nothing to do.
    fn pass(&mut self, done: Done) -> Result<(), NoMemory>
        ensures { IfOk result (λ _.
            DealsDone done self.old.jobs.items self.old.places.items self.new.jobs.items self.new.places.items) }
    {
        self.places.push(Some(done))?;
        Ok(())
    }

    /// Deals the readers: those with gets get jobs.
    fn deal_readers(
        &mut self,
        alloc: Global,
        gets: &[GetLine],
        readers: Vec<Vec<ReadSeat>>,
    ) -> Result<(), NoMemory>
        requires few { vec_len readers ≤ 8 }
        ensures { IfOk result (λ _. DealsReaders gets.now readers.items
            self.old.jobs.items self.old.places.items self.new.jobs.items self.new.places.items) }
    {
        let mut readers = readers;
        'readers: while let Some(seats) = readers.pop() {
            let reader = readers.len() as u32;
            if has_gets(gets, reader) {
                self.deal(Job::Read(reader, seats))?;
            } else {
                self.pass(Done::HasRead(seats, Ok(Vec::new(alloc))))?;
            }
        }
        Ok(())
    }

    /// Deals the writers: those of shards with puts get jobs.
    fn deal_writers(
        &mut self,
        table: &ShardTable,
        puts: &[PutLine],
        writers: Vec<WriteSeat>,
    ) -> Result<(), NoMemory>
        requires few { vec_len writers ≤ 8 }
        requires free { AreEach IsFreeWriter table.now.shards writers.items }
        ensures { IfOk result (λ _. DealsWriters table.now puts.now writers.items
            self.old.jobs.items self.old.places.items self.new.jobs.items self.new.places.items) }
    {
        let mut writers = writers;
        'writers: while let Some(seat) = writers.pop() {
            let shard = writers.len();
            if has_puts(table, puts, shard) {
                self.deal(Job::Write(shard as u32, seat))?;
            } else {
                self.pass(Done::Wrote(seat, None))?;
            }
        }
        Ok(())
    }
}
