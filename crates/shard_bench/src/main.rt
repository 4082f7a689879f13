//! Puts into a shard and finds in it, on threads of their own: the proved side of the comparison in bench/shard.
//!
//! Words: `put COUNT LOOKUPS` makes so many puts, `find COUNT LOOKUPS` so many finds after them, and `both COUNT LOOKUPS` the puts
//! beside readers that go on until they know of all of them. How long each took goes to standard error.
#![tactic(auto)]

ghost use Rattle.std.specs.Prelude.{◌≡◌, ◌*◌, ◌<◌, ◌≤◌, length, All, IfOk, IfSome};
ghost use denote.Param.Send.{IsSync};
ghost use Rattle.trie_writer.specs.Written.{MayWrite};
ghost use Rattle.trie_reader.specs.Read.{MayRead};

use outside::Steps;
use std::alloc::{AllocError, Global};
use std::marker::Brand;
use std::process::ExitCode;
use std::rt::Runtime;
use std::sync::ledger::{Blank, Ledger};
use std::thread::Threads;
use std::time::{Clock, Instant};
use std::{env, io, thread};
use trie_reader::find;
use trie_rule::{ReadSeat, ShardCells, WriteSeat};
use trie_writer::put;

/// So many keys at most.
const MOST: u32 = 1_000_000;

/// How many calls there were, and how many nanoseconds they took.
#[derive(Clone, Copy)]
struct Timed {
    calls: u64,
    nanos: u128,
}

/// Key number i: a separator, a scrambled number, a terminator, as a partition string has them.
fn key_of(i: u32) -> [u8; 6]
    ensures { length result ≡ 6 }
{
    let [a, b, c, d] = i.wrapping_mul(2_654_435_761).to_be_bytes();
    [0x40, a, b, c, d, 0x38]
}

/// The nanoseconds since a time; 0 where the clock can't be read.
fn nanos_since(clock: &impl Clock, start: Option<Instant>) -> u128 {
    let Some(start) = start else {
        return 0;
    };
    match start.elapsed(clock) {
        Ok(time) => time.as_nanos(),
        Err(_) => 0,
    }
}

/// So many puts, each of a key of its own.
fn put_all<R: Clock>(rt: &R, cells: &ShardCells, seat: WriteSeat, count: u32) -> Timed
    requires own { MayWrite cells.now seat }
{
    let mut seat = seat;
    let start = Instant::now(rt).ok();
    let mut calls = 0u64;
    'puts: for i in 0..count {
        if put(cells, &mut seat, &key_of(i), &i.to_be_bytes()).is_ok() {
            calls = calls.saturating_add(1);
        }
    }
    Timed {
        calls,
        nanos: nanos_since(rt, start),
    }
}

/// How many of so many finds answer a record.
fn find_all<R: Clock, L: Ledger>(
    rt: &R,
    cells: &ShardCells,
    seat: ReadSeat,
    count: u32,
    lookups: u32,
    blank: Blank,
) -> Timed
    requires name { blank.name ≡ L.name }
    requires parts { blank.parts ≡ L.parts }
    requires some { 0 < blank.parts }
    requires own { MayRead cells.now seat }
    requires count { 0 < count }
{
    let mut seat = seat;
    let mut steps: Steps<L> = Steps::new(blank);
    let start = Instant::now(rt).ok();
    let mut calls = 0u64;
    'finds: for i in 0..lookups {
        if find(cells, &mut seat, &key_of(i % count), &mut steps)
            .hit
            .is_some()
        {
            calls = calls.saturating_add(1);
        }
    }
    Timed {
        calls,
        nanos: nanos_since(rt, start),
    }
}

/// Finds until the reader knows of all puts.
fn find_until_all<R: Clock, L: Ledger>(
    rt: &R,
    cells: &ShardCells,
    seat: ReadSeat,
    count: u32,
    blank: Blank,
) -> Timed
    requires name { blank.name ≡ L.name }
    requires parts { blank.parts ≡ L.parts }
    requires some { 0 < blank.parts }
    requires own { MayRead cells.now seat }
    requires count { 0 < count }
{
    let mut seat = seat;
    let mut steps: Steps<L> = Steps::new(blank);
    let start = Instant::now(rt).ok();
    let mut calls = 0u64;
    'finds: for i in 0..u64::MAX {
        calls = i;
        let key = key_of((i % count as u64) as u32);
        if find(cells, &mut seat, &key, &mut steps).at >= count as u64 {
            break;
        }
    }
    Timed {
        calls,
        nanos: nanos_since(rt, start),
    }
}

fn read_one<R: Clock>(rt: &R, cells: &ShardCells, seat: ReadSeat, count: u32) -> Timed
    requires own { MayRead cells.now seat }
    requires count { 0 < count }
{
    find_until_all::<R, Brand>(rt, cells, seat, count, Blank::new(1))
}

/// The readers' finds, each on a thread of its own.
fn read_beside<R: Threads + Clock + Sync>(
    rt: &R,
    cells: &ShardCells,
    seats: Vec<ReadSeat>,
    count: u32,
) -> Result<Vec<Timed>, AllocError>
    requires own { All (MayRead cells.now) seats.items }
    requires count { 0 < count }
{
    thread::map_vec(rt, seats, &|seat| read_one(rt, cells, seat, count))
}

/// The finds of all readers, and the time of the one that took longest.
fn together(each: &[Timed]) -> Timed {
    let mut all = Timed { calls: 0, nanos: 0 };
    for reader in each {
        all.calls = all.calls.saturating_add(reader.calls);
        all.nanos = all.nanos.max(reader.nanos);
    }
    all
}

/// Three read seats.
fn three_readers(
    alloc: Global,
    cells: &ShardCells,
    seat: &mut WriteSeat,
) -> Result<Vec<ReadSeat>, AllocError>
    requires own { MayWrite cells.now seat.old }
    ensures own { MayWrite cells.now seat.new }
    ensures readers { IfOk result (λ v. All (MayRead cells.now) v.items) }
{
    let mut readers = Vec::with_capacity(alloc, 3)?;
    readers.push(cells.split(seat))?;
    readers.push(cells.split(seat))?;
    readers.push(cells.split(seat))?;
    Ok(readers)
}

/// So many puts of one writer beside the finds of three readers.
fn put_and_find<R: Threads + Clock + Sync>(
    rt: &R,
    alloc: Global,
    cells: &ShardCells,
    seat: WriteSeat,
    count: u32,
) -> Result<(Timed, Timed), AllocError>
    requires own { MayWrite cells.now seat }
    requires count { 0 < count }
{
    let mut writer = seat;
    let readers = three_readers(alloc, cells, &mut writer)?;
    let (puts, finds) = thread::join(
        rt,
        move ||
            requires { MayWrite cells.now writer }
        { put_all(rt, cells, writer, count) },
        move ||
            requires { IsSync R.row × All (MayRead cells.now) readers.items × (0 < count) }
        { read_beside(rt, cells, readers, count) },
    );
    Ok((puts, together(&finds?)))
}

/// What a run does with how many keys, and how many lookups there are.
#[derive(Drop)]
struct Work {
    name: String,
    count: u32,
    lookups: u32,
}

/// The work that the words ask for; none where they ask for none.
fn work_of(rt: &HostRuntime, alloc: Global) -> io::Result<Option<Work>>
    ensures some { IfOk result (λ w. IfSome w (λ w. 0 < w.count)) }
    ensures few { IfOk result (λ w. IfSome w (λ w. w.count ≤ 1000000)) }
{
    let words: Vec<String> = env::args(rt)?.skip(1).collect(alloc)?;
    let [name, count, lookups] = words.as_slice() else {
        return Ok(None);
    };
    let (Ok(count), Ok(lookups)) = (count.parse::<u32>(), lookups.parse::<u32>()) else {
        return Ok(None);
    };
    if count == 0 || count > MOST {
        return Ok(None);
    }
    Ok(Some(Work {
        name: name.clone()?,
        count,
        lookups,
    }))
}

/// The puts beside the finds.
fn run_both<R: Runtime + Threads + Sync>(
    rt: &R,
    alloc: Global,
    cells: &ShardCells,
    seat: WriteSeat,
    count: u32,
) -> io::Result<()>
    requires own { MayWrite cells.now seat }
    requires count { 0 < count }
{
    let (puts, finds) = put_and_find(rt, alloc, cells, seat, count)?;
    println!(rt; "puts {}", puts.calls)?;
    eprintln!(rt; "puts {} ns {}", puts.calls, puts.nanos)?;
    eprintln!(rt; "finds {} ns {}", finds.calls, finds.nanos)
}

/// The puts, and then the finds.
fn run_in_turn<R: Runtime>(
    rt: &R,
    cells: &ShardCells,
    seat: WriteSeat,
    work: &Work,
) -> io::Result<()>
    requires own { MayWrite cells.now seat }
    requires count { 0 < work.now.count }
{
    let mut writer = seat;
    let reader = cells.split(&mut writer);
    let puts = put_all(rt, cells, writer, work.count);
    println!(rt; "puts {}", puts.calls)?;
    eprintln!(rt; "puts {} ns {}", puts.calls, puts.nanos)?;
    if work.name.as_str() != "find" {
        return Ok(());
    }
    let finds = find_all::<R, Brand>(rt, cells, reader, work.count, work.lookups, Blank::new(1));
    println!(rt; "finds {}", finds.calls)?;
    eprintln!(rt; "finds {} ns {}", finds.calls, finds.nanos)
}

/// The work in a shard of three cells for each key and some more; false where there is no memory for it.
fn run<R: Runtime + Threads + Sync>(rt: &R, alloc: Global, work: &Work) -> io::Result<bool>
    requires count { 0 < work.now.count }
    requires few { work.now.count ≤ 1000000 }
{
    let Ok((cells, seat)) = ShardCells::new(alloc, 3 * work.count + 1024) else {
        return Ok(false);
    };
    if work.name.as_str() == "both" {
        run_both(rt, alloc, &cells, seat, work.count)?;
    } else {
        run_in_turn(rt, &cells, seat, work)?;
    }
    Ok(true)
}

fn main(rt: HostRuntime) -> ExitCode {
    let alloc = rt.alloc();
    let Ok(Some(work)) = work_of(&rt, alloc) else {
        return ExitCode::from(1);
    };
    match run(&rt, alloc, &work) {
        Ok(true) => ExitCode::from(0),
        _ => ExitCode::from(1),
    }
}
