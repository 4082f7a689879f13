//! The walk to a key over a source of words.

ghost use Rattle.std.specs.Prelude.{◌≡◌, ◌<◌, ◌^◌, ℕ, length};
ghost use Rattle.trie_image.specs.declared.Ledger.{Ledger};
ghost use Rattle.trie_image.specs.Puts.{HasLastPut};
ghost use Rattle.trie_image.specs.WellFormed.{IsWellFormed, HasLedger};
ghost use Rattle.trie_image.specs.Way.{OnTheWay, LeadsTo};

use crate::source::WordSource;
use crate::walk::{advance, next_word, start};
use crate::{Advance, Place, Rec};

/// The outcome of a place's load from a source of words.
#[inline(always)]
fn load_from<W: WordSource>(from: &W, seat: &mut W::Seat, place: Place, key: &[u8]) -> Advance
    requires may { W.may from.now seat.old }
    requires image { HasLedger (W.image from.now seat.old) }
    requires small { length key.now < 2 ^ 32 }
    requires way { OnTheWay (W.image from.now seat.old) key.now place }
    ensures leads { LeadsTo (W.image from.now seat.old) key.now place result }
    ensures same { seat.new ≡ seat.old }
{
    let word = from.word(seat, next_word(&place) as usize);
    advance(&place, word, key)
}

/// The record of the key's last put in the image that a source reads, or None where no put has the key.
pub fn find<W: WordSource>(from: &W, seat: &mut W::Seat, key: &[u8]) -> Option<Rec>
    requires may { W.may from.now seat.old }
    requires image { HasLedger (W.image from.now seat.old) }
    requires small { length key.now < 2 ^ 32 }
    ensures found { (g : Ledger) (cells : ℕ) → IsWellFormed (W.image from.now seat.old) g cells → HasLastPut g.puts key.now result }
    ensures same { seat.new ≡ seat.old }
{
    let mut place = start();
    'loads: loop {
        match load_from(from, seat, place, key) {
            Advance::On(next) => place = next,
            Advance::Found(rec) => return Some(rec),
            Advance::Absent => return None,
        }
    }
}
