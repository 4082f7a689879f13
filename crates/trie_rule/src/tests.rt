//! The calls of cells once, over words that are all 0. Stores are tested where puts are made.

ghost use Rattle.std.specs.Prelude.{◌≡◌, ◌<◌};
ghost use Rattle.trie_rule.specs.Rule.{opening_write_view};
ghost use Rattle.trie_rule.specs.Seats.{WritesTo};

use crate::{Note, ShardCells, WriteSeat};
use outside::Steps;
use std::marker::Brand;
use std::process::Abort;
use std::sync::ledger::{Blank, Ledger};
use std::test::Fail;

/// Two readers look at cells without puts, one becomes the other, and the cells are closed.
fn read_and_close<L: Ledger>(rt: &impl Abort, cells: ShardCells, seat: WriteSeat, blank: Blank)
    requires name { blank.name ≡ L.name }
    requires parts { blank.parts ≡ L.parts }
    requires some { 0 < blank.parts }
    requires own { WritesTo cells seat }
    requires opening { seat.knows ≡ opening_write_view 1024 }
{
    let mut seat = seat;
    let mut steps: Steps<L> = Steps::new(blank);
    let mut reader = cells.split(&mut seat);
    let note = Note::of(cells.split(&mut seat));
    assert_eq!(rt; cells.cells(), 1024);
    assert_eq!(rt; seat.used(), 1);
    assert_eq!(rt; cells.load_own(&mut seat, 4095), 0);
    assert_eq!(rt; cells.load_front(&mut reader, None, &mut steps), 0);
    assert_eq!(rt; cells.load(&mut reader, 4095, &mut steps), 0);
    cells.join(note.into_seat(), &mut reader);
    assert_eq!(rt; cells.load_front(&mut reader, None, &mut steps), 0);
    let words = cells.close(seat);
    assert_eq!(rt; words.word(4095), 0);
}

#[test]
fn cells_without_puts(rt: HostRuntime) -> Result<(), Fail> {
    let (cells, seat) = ShardCells::new(rt.alloc(), 1024)?;
    read_and_close::<Brand>(&rt, cells, seat, Blank::new(1));
    Ok(())
}
