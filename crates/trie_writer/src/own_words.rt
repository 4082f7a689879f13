//! The words that the writer has written, as a source of words. Puts and the writer's finds read them.

ghost use Rattle.std.specs.Prelude.{◌≡◌};

use trie_image::source::WordSource;
use trie_rule::{ShardCells, WriteSeat};

/// The words of cells, read through their write seat.
#[derive(Clone, Copy)]
pub(crate) struct OwnWords<'a> {
    pub(crate) cells: &'a ShardCells,
}

impl<'a> WordSource for OwnWords<'a> {
    ghost use Rattle.trie_rule.specs.Seats.{WritesTo};

    type Seat = WriteSeat;

    ghost may = { λ from seat. WritesTo from.cells.now seat };

    ghost image = { λ from seat. seat.knows.image };

    #[inline(always)]
    fn word(&self, seat: &mut WriteSeat, at: usize) -> u64 {
        seat.is_standing();
        if at < 4 * self.cells.cells() as usize {
            self.cells.load_own(seat, at as u32)
        } else {
            0
        }
    }
}
