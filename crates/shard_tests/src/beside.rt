//! One writer and two readers on threads of their own: each answer of each find is a legal one.
//!
//! The keys are put in turn, so the number of a key's last put among the first so many is known. Its record's cell is known from
//! the same puts made before in other cells.

ghost use Rattle.std.specs.Prelude.{◌≡◌, ◌<◌, ◌≤◌, ◌*◌, length, List};
ghost use denote.Param.Send.{IsSync};
ghost use Rattle.trie_writer.specs.Written.{MayWrite};
ghost use Rattle.trie_reader.specs.Read.{MayRead};

use outside::Steps;
use std::alloc::{AllocError, Global};
use std::marker::Brand;
use std::sync::ledger::{Blank, Ledger};
use std::test::Fail;
use std::thread;
use std::thread::Threads;
use trie_image::Rec;
use trie_reader::{Found, find};
use trie_rule::{ReadSeat, ShardCells, WriteSeat};
use trie_writer::{put, used};

const CELLS: u32 = 32_768;

/// So many keys are put in turn.
const KEYS: u32 = 2000;

const PUTS: u32 = 6000;

/// Key number i: two scrambled bytes between a separator and a terminator.
fn key_of(i: u32) -> [u8; 4]
    ensures { length result ≡ 4 }
{
    let [_, _, a, b] = i.wrapping_mul(40_503).to_be_bytes();
    [0x40, a, b, 0x38]
}

/// The put's key is that of its number, from 1, and its value has up to eight bytes. Answers the record that it has where it is made.
fn put_number(cells: &ShardCells, seat: &mut WriteSeat, number: u32) -> Option<Rec>
    requires own { MayWrite cells.now seat.old }
    requires least { 1 ≤ number }
    ensures { MayWrite cells.now seat.new }
{
    let cell = used(seat);
    let value = b"12345678".split_at((number % 9) as usize).0;
    let made = put(cells, seat, &key_of((number - 1) % KEYS), value);
    if made != Ok(number as u64) {
        return None;
    }
    Some(Rec {
        cell,
        number,
        length: number % 9,
    })
}

/// The records of all puts, made where no reader is.
fn put_alone(
    alloc: Global,
    cells: &ShardCells,
    seat: &mut WriteSeat,
) -> Result<Vec<Rec>, AllocError>
    requires own { MayWrite cells.now seat.old }
{
    let mut recs = Vec::with_capacity(alloc, PUTS as usize)?;
    'puts: for number in 1..=PUTS {
        if let Some(rec) = put_number(cells, seat, number) {
            recs.push(rec)?;
        }
    }
    Ok(recs)
}

/// How many of the puts have the records that they had before.
fn count_put(cells: &ShardCells, mut seat: WriteSeat, recs: &[Rec]) -> u32
    requires own { MayWrite cells.now seat }
{
    let mut same = 0u32;
    'puts: for number in 1..=PUTS {
        if put_number(cells, &mut seat, number) == recs.get((number - 1) as usize).copied() {
            same = same.saturating_add(1);
        }
    }
    same
}

/// The record of the last put of key number k among the first `at`.
fn last_put(recs: &[Rec], k: u32, at: u64) -> Option<Rec>
    requires { k < 2000 }
{
    let behind = at.checked_sub(1 + k as u64)?;
    let number = 1 + k as u64 + behind / KEYS as u64 * KEYS as u64;
    recs.get((number - 1) as usize).copied()
}

/// The answer stands for no fewer puts than the reader knew of and no more than are made, and is what the map of so many has.
fn is_legal(recs: &[Rec], k: u32, front: u64, found: Found) -> bool
    requires { k < 2000 }
{
    front <= found.at && found.at <= PUTS as u64 && found.hit == last_put(recs, k, found.at)
}

/// How many of the finds have a legal answer.
fn count_legal(cells: &ShardCells, seat: ReadSeat, recs: &[Rec]) -> u32
    requires own { MayRead cells.now seat }
{
    count_with::<Brand>(cells, seat, recs, Blank::new(1))
}

fn count_with<L: Ledger>(cells: &ShardCells, mut seat: ReadSeat, recs: &[Rec], blank: Blank) -> u32
    requires name { blank.name ≡ L.name }
    requires parts { blank.parts ≡ L.parts }
    requires some { 0 < blank.parts }
    requires own { MayRead cells.now seat }
{
    let mut steps: Steps<L> = Steps::new(blank);
    let mut legal = 0u32;
    let mut front = 0;
    'finds: for i in 0..PUTS {
        let k = i.wrapping_mul(7) % KEYS;
        let found = find(cells, &mut seat, &key_of(k), &mut steps);
        if is_legal(recs, k, front, found) {
            legal = legal.saturating_add(1);
        }
        front = found.at;
    }
    legal
}

/// Two readers beside each other.
fn count_both<R: Threads + Sync>(
    rt: &R,
    cells: &ShardCells,
    first: ReadSeat,
    second: ReadSeat,
    recs: &[Rec],
) -> (u32, u32)
    requires first { MayRead cells.now first }
    requires second { MayRead cells.now second }
{
    thread::join(
        rt,
        move ||
            requires first { MayRead cells.now first }
        { count_legal(cells, first, recs) },
        move ||
            requires second { MayRead cells.now second }
        { count_legal(cells, second, recs) },
    )
}

/// A writer beside two readers: how many of its puts are as before, and how many answers of each reader are legal.
fn run<R: Threads + Sync>(
    rt: &R,
    cells: &ShardCells,
    mut writer: WriteSeat,
    recs: &[Rec],
) -> (u32, (u32, u32))
    requires own { MayWrite cells.now writer }
{
    let first = cells.split(&mut writer);
    let second = cells.split(&mut writer);
    thread::join(
        rt,
        move ||
            requires own { MayWrite cells.now writer }
        { count_put(cells, writer, recs) },
        move ||
            requires { IsSync R.row × MayRead cells.now first × MayRead cells.now second }
        { count_both(rt, cells, first, second, recs) },
    )
}

#[test]
fn one_writer_and_two_readers(rt: HostRuntime) -> Result<(), Fail> {
    let (alone, mut seat) = ShardCells::new(rt.alloc(), CELLS)?;
    let recs = put_alone(rt.alloc(), &alone, &mut seat)?;
    assert_eq!(rt; recs.len(), PUTS as usize);
    let (cells, writer) = ShardCells::new(rt.alloc(), CELLS)?;
    assert_eq!(rt; run(&rt, &cells, writer, &recs), (PUTS, (PUTS, PUTS)));
    Ok(())
}
