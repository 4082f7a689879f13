//! The work of a batch as jobs, each on a thread of its own.

ghost use Rattle.std.specs.Prelude.{◌≡◌, ◌≤◌, ℕ, length, All, IfOk, vec_len};
ghost use Rattle.load_work.specs.Puts.{IsPut};
ghost use Rattle.load_work.specs.Reads.{IsGet};
ghost use Rattle.load_work.specs.Jobs.{CanRun, HasRun, EachHasRun};

use crate::batch::Answer;
use crate::read::make_gets;
use crate::write::make_puts;
use key_types::NoMemory;
use outside::Gate;
use script_text::{GetLine, PutLine};
use shard_table::ShardTable;
use std::alloc::{AllocError, Global};
use std::thread;
use std::thread::Threads;
use trie_rule::{ReadSeat, WriteSeat};

/// What a thread does: the puts of a shard, by its writer, or the gets of a reader.
#[derive(Drop)]
pub(crate) enum Job {
    Write(u32, WriteSeat),
    Read(u32, Vec<ReadSeat>),
}

/// The seats of a job that is done, and what it answers: the line of the first put without room, or answers to gets.
#[derive(Drop)]
pub(crate) enum Done {
    Wrote(WriteSeat, Option<u32>),
    HasRead(Vec<ReadSeat>, Result<Vec<Answer>, NoMemory>),
}

/// Does a job.
fn run_job<G: Gate>(
    alloc: Global,
    table: &ShardTable,
    puts: &[PutLine],
    gets: &[GetLine],
    gate: &G,
    job: Job,
) -> Done
    requires few { length table.now.shards ≤ 8 }
    requires puts { All IsPut puts.now }
    requires gets { All IsGet gets.now }
    requires can { CanRun table.now job }
    ensures { HasRun table.now puts.now gets.now job result }
{
    match job {
        Job::Write(shard, mut seat) => {
            let full = make_puts(
                table,
                table.cells(shard as usize),
                shard,
                &mut seat,
                puts,
                gate,
            );
            Done::Wrote(seat, full)
        }
        Job::Read(reader, mut seats) => {
            let answers = make_gets(alloc, table, reader, seats.as_mut_slice(), gets, gate);
            Done::HasRead(seats, answers)
        }
    }
}

/// Does all jobs beside each other, one of them here, and answers what they leave in their order.
pub(crate) fn run_jobs<R: Threads + Sync, G: Gate>(
    rt: &R,
    alloc: Global,
    table: &ShardTable,
    puts: &[PutLine],
    gets: &[GetLine],
    gate: &G,
    jobs: Vec<Job>,
) -> Result<Vec<Done>, AllocError>
    requires few { length table.now.shards ≤ 8 }
    requires puts { All IsPut puts.now }
    requires gets { All IsGet gets.now }
    requires can { All (CanRun table.now) jobs.items }
    ensures len { IfOk result (λ done. vec_len done ≡ vec_len jobs) }
    ensures each { IfOk result (λ done. EachHasRun table.now puts.now gets.now jobs.items done.items) }
{
    thread::map_vec(
        rt,
        jobs,
        &|job: Job| -> Done
            requires few { length table.now.shards ≤ 8 }
            requires puts { All IsPut puts.now }
            requires gets { All IsGet gets.now }
            requires can { CanRun table.now job }
            ensures { HasRun table.entry.now puts.entry.now gets.entry.now job result }
        { run_job(alloc, table, puts, gets, gate, job) },
    )
}
