//! Worked rows on one thread: the cells that puts take, what finds answer before and after a note, and a full shard.

ghost use Rattle.std.specs.Prelude.{◌≡◌, ◌<◌, ◌≤◌, [], length};
ghost use Rattle.trie_machine.specs.Events.{resting};
ghost use Rattle.trie_rule.specs.Seats.{ReadsFrom};
ghost use Rattle.trie_writer.specs.Written.{MayWrite};
ghost use Rattle.trie_reader.specs.Read.{MayRead};

use outside::Steps;
use std::marker::Brand;
use std::process::Abort;
use std::sync::ledger::{Blank, Ledger};
use std::test::Fail;
use trie_image::Rec;
use trie_reader::{Found, copy_into, find, front, learn};
use trie_rule::{ReadSeat, ShardCells, WriteSeat};
use trie_writer::{Full, find_own, put, tell, used};

/// The strings of the tinyint keys 0 to 6, the number of each put, and the cells taken after it.
const SEVEN: [([u8; 4], u32, u32); 7] = [
    (*b"\x40\x80\x38\x38", 1, 3),
    (*b"\x40\x81\x38\x38", 2, 7),
    (*b"\x40\x82\x38\x38", 3, 9),
    (*b"\x40\x83\x38\x38", 4, 11),
    (*b"\x40\x84\x38\x38", 5, 13),
    (*b"\x40\x85\x38\x38", 6, 15),
    (*b"\x40\x86\x38\x38", 7, 20),
];

/// Puts the seven keys in their order.
fn put_seven(rt: &impl Abort, cells: &ShardCells, seat: &mut WriteSeat)
    requires own { MayWrite cells.now seat.old }
    ensures { MayWrite cells.now seat.new }
{
    'puts: for (key, number, taken) in &SEVEN {
        assert!(rt; find_own(cells, seat, key).is_none());
        assert_eq!(rt; put(cells, seat, key, &[7]), Ok(*number as u64));
        assert_eq!(rt; used(seat), *taken);
        assert_eq!(rt;
            find_own(cells, seat, key).map(|rec| rec.number),
            Some(*number)
        );
    }
}

/// Finds the seven keys.
fn find_seven<L: Ledger>(
    rt: &impl Abort,
    cells: &ShardCells,
    seat: &mut ReadSeat,
    steps: &mut Steps<L>,
)
    requires own { MayRead cells.now seat.old }
    ensures { MayRead cells.now seat.new }
{
    'finds: for (key, number, _) in &SEVEN {
        let found = find(cells, seat, key, steps);
        assert_eq!(rt; found.at, 7);
        assert_eq!(rt;
            found.hit.map(|rec| (rec.number, rec.length)),
            Some((*number, 1))
        );
    }
}

/// A reader that was made before the puts learns of them, and finds each key and no other.
fn seven_keys<L: Ledger>(rt: &impl Abort, cells: &ShardCells, writer: &mut WriteSeat, blank: Blank)
    requires name { blank.name ≡ L.name }
    requires parts { blank.parts ≡ L.parts }
    requires some { 0 < blank.parts }
    requires own { MayWrite cells.now writer.old }
{
    let mut steps: Steps<L> = Steps::new(blank);
    let mut reader = cells.split(writer);
    put_seven(rt, cells, writer);
    learn(cells, &mut reader, tell(cells, writer));
    find_seven(rt, cells, &mut reader, &mut steps);
    let none = Found { hit: None, at: 7 };
    assert_eq!(rt;
        find(cells, &mut reader, b"\x40\x87\x38\x38", &mut steps),
        none
    );
}

#[test]
fn seven_keys_on_running_words(rt: HostRuntime) -> Result<(), Fail> {
    let (cells, mut writer) = ShardCells::new(rt.alloc(), 1024)?;
    seven_keys::<Brand>(&rt, &cells, &mut writer, Blank::new(1));
    Ok(())
}

/// The greater of two fronts is that of the seat that is left.
fn join_fronts(cells: &ShardCells, from: ReadSeat, into: &mut ReadSeat)
    requires own { ReadsFrom cells.now from × ReadsFrom cells.now into.old }
    requires from { from.knows.reader ≡ resting 1 }
    requires into { into.old.knows.reader ≡ resting 0 }
    ensures own { ReadsFrom cells.now into.new }
    ensures front { into.new.knows.reader ≡ resting 1 }
{
    cells.join(from, into);
}

/// A reader that was made before a put knows of it once it has learnt the writer's note, and so does one that another joins.
fn one_put<L: Ledger>(rt: &impl Abort, cells: &ShardCells, writer: &mut WriteSeat, blank: Blank)
    requires name { blank.name ≡ L.name }
    requires parts { blank.parts ≡ L.parts }
    requires some { 0 < blank.parts }
    requires own { MayWrite cells.now writer.old }
    requires opening { writer.old.knows.made ≡ [] }
{
    let key = b"\x40\x80\x38\x38";
    let mut steps: Steps<L> = Steps::new(blank);
    let mut early = cells.split(writer);
    let mut joined = cells.split(writer);
    assert_eq!(rt; put(cells, writer, key, &[7]), Ok(1));
    let found = find(cells, &mut early, key, &mut steps);
    assert!(rt; found.at <= 1);
    assert_eq!(rt; found.hit.is_some(), found.at == 1);
    learn(cells, &mut early, tell(cells, writer));
    let rec = Rec {
        cell: 1,
        number: 1,
        length: 1,
    };
    assert_eq!(rt;
        find(cells, &mut early, key, &mut steps),
        Found {
            hit: Some(rec),
            at: 1
        }
    );
    join_fronts(cells, cells.split(writer), &mut joined);
    assert_eq!(rt; front(cells, &mut joined), 1);
}

#[test]
fn a_put_that_is_learnt(rt: HostRuntime) -> Result<(), Fail> {
    let (cells, mut writer) = ShardCells::new(rt.alloc(), 1024)?;
    one_put::<Brand>(&rt, &cells, &mut writer, Blank::new(1));
    Ok(())
}

/// Values of 1,000 bytes take 32 cells each, until there is no room for the put's cost.
fn fill(rt: &impl Abort, cells: &ShardCells, seat: &mut WriteSeat, key: &[u8], value: &[u8])
    requires own { MayWrite cells.now seat.old }
    requires least { 1 ≤ length key.now }
    requires most { length key.now ≤ 2048 }
    requires short { length value.now ≤ 65535 }
    ensures { MayWrite cells.now seat.new }
{
    'puts: for number in 1..=31u32 {
        assert_eq!(rt; put(cells, seat, key, value), Ok(number as u64));
        assert_eq!(rt; used(seat), 2 + 32 * number);
    }
    let full = Full {
        used: 994,
        cost: 49,
        cells: 1024,
    };
    assert_eq!(rt; put(cells, seat, key, value), Err(full));
}

/// The last value that found room is found and copied.
fn full_shard<L: Ledger>(rt: &impl Abort, cells: &ShardCells, writer: &mut WriteSeat, blank: Blank)
    requires name { blank.name ≡ L.name }
    requires parts { blank.parts ≡ L.parts }
    requires some { 0 < blank.parts }
    requires own { MayWrite cells.now writer.old }
{
    let key = b"\x40\x80\x00\x00\x01\x38\x38";
    let value = [b'x'; 1000];
    fill(rt, cells, writer, key, &value);
    let mut steps: Steps<L> = Steps::new(blank);
    let mut reader = cells.split(writer);
    let found = find(cells, &mut reader, key, &mut steps);
    let rec = Rec {
        cell: 962,
        number: 31,
        length: 1000,
    };
    assert_eq!(rt;
        found,
        Found {
            hit: Some(rec),
            at: 31
        }
    );
    let Some(rec) = found.hit else {
        return;
    };
    let mut copied = [0; 1000];
    copy_into(cells, &mut reader, rec, &mut copied, &mut steps);
    assert_eq!(rt; copied.as_slice(), value.as_slice());
}

#[test]
fn a_full_shard(rt: HostRuntime) -> Result<(), Fail> {
    let (cells, mut writer) = ShardCells::new(rt.alloc(), 1024)?;
    full_shard::<Brand>(&rt, &cells, &mut writer, Blank::new(1));
    Ok(())
}
