//! The value of a record, copied word by word. Readers call it with a record that a find has answered.

ghost use Rattle.std.specs.Prelude.{◌≡◌, ◌+◌, ◌*◌, ◌/◌, ◌<◌, ℕ, length, slice_index, None};
ghost use Rattle.cell_layout.specs.Words.{byte_of};
ghost use Rattle.trie_rule.specs.Seats.{ReadsFrom};
ghost use Rattle.trie_reader.specs.Read.{IsSeenRecord, IsValueOfRecord, IsPieceOf};

use outside::Steps;
use std::sync::ledger::Ledger;
use trie_image::Rec;
use trie_rule::{ReadSeat, ShardCells};

/// Writes the bytes of a word, the least first, from place `at` on, up to the end.
#[inline(always)]
fn write_word(out: &mut [u8], at: usize, word: u64)
    requires { at < length out.old }
    ensures size { length out.new ≡ length out.old }
    ensures before { (i : ℕ) → i < at → slice_index out.new i ≡ slice_index out.old i }
    ensures bytes { (i : ℕ) → i < 8 → at + i < length out.old → slice_index out.new (at + i) ≡ byte_of word i }
{
    let bytes = word.to_le_bytes();
    let count = (out.len() - at).min(8);
    out[at..at + count].copy_from_slice(&bytes[..count]);
}

/// A word of the value of a record, by its place in the value. It is one step.
fn load_piece<L: Ledger>(
    cells: &ShardCells,
    seat: &mut ReadSeat,
    rec: Rec,
    place: u32,
    steps: &mut Steps<L>,
) -> u64
    requires own { ReadsFrom cells.now seat.old }
    requires idle { seat.old.knows.reader.find ≡ None }
    requires record { IsSeenRecord seat.old.knows.seen rec }
    requires inside { 8 * place < rec.length }
    ensures same { seat.new ≡ seat.old }
    ensures piece { IsPieceOf seat.old.knows.seen rec place result }
    ensures step { steps.new ≡ steps.old + 1 }
{
    seat.has_values();
    let _ = cells.cells();
    cells.load(seat, 4 * rec.cell + 1 + place, steps)
}

/// Copies the value of a record, whose length `out` has.
///
/// The record is that of a put that the reader has seen, as each is that a find on the seat has answered. It makes one
/// step for each eight bytes begun, and leaves the seat as it was.
pub fn copy_into<L: Ledger>(
    cells: &ShardCells,
    seat: &mut ReadSeat,
    rec: Rec,
    out: &mut [u8],
    steps: &mut Steps<L>,
)
    requires own { ReadsFrom cells.now seat.old }
    requires idle { seat.old.knows.reader.find ≡ None }
    requires record { IsSeenRecord seat.old.knows.seen rec }
    requires size { length out.old ≡ rec.length }
    ensures same { seat.new ≡ seat.old }
    ensures value { IsValueOfRecord seat.old.knows.seen rec out.new }
    ensures steps { steps.new ≡ steps.old + (rec.length + 7) / 8 }
{
    'words: for place in 0..rec.length.div_ceil(8) {
        let word = load_piece(cells, seat, rec, place, steps);
        write_word(out, 8 * place as usize, word);
    }
}
