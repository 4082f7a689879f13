//! The walk to a key, one load after the other.
//!
//! Each function is inlined: where a place is made its role is known, so a lookup chooses once for a node and not at each load.

ghost use Rattle.std.specs.Prelude.{◌≡◌, ◌<◌, ◌^◌, ◌*◌, ℕ, length, slice_get, Some, None};
ghost use Rattle.trie_image.specs.declared.Ledger.{Ledger};
ghost use Rattle.trie_image.specs.Place.{start_place, next_word_of, outcome_of, follow, node_place, inward, prefix_step, advance_in_node};
ghost use Rattle.trie_image.specs.Puts.{HasLastPut};
ghost use Rattle.trie_image.specs.WellFormed.{IsWellFormed, HasLedger};
ghost use Rattle.trie_image.specs.Way.{OnTheWay, LeadsTo};

use crate::{Advance, Place, Rec, Role};
use cell_layout::{Kind, Ptr, chain_byte, half, head_parts, kind_of, sparse_find};

/// The place of the root, where every walk begins.
pub fn start() -> Place
    ensures { result ≡ start_place }
{
    Place {
        role: Role::Root,
        ptr: 0,
        part: 0,
        taken: 0,
    }
}

/// The word of the image that the place loads next.
#[inline(always)]
pub fn next_word(place: &Place) -> u32
    requires { next_word_of place.now < 2 ^ 32 }
    ensures { result ≡ next_word_of place.now }
{
    let cell = place.ptr / 32;
    match place.role {
        Role::Root => 1,
        Role::Chain => 4 * cell + place.ptr % 32 / 8,
        Role::Order => 4 * cell + 3,
        Role::Slot => 4 * cell + place.part as u32 / 2,
        Role::Top => 4 * cell + place.part as u32 / 64 / 2,
        Role::Mid => 4 * cell + place.part as u32 / 8 % 8 / 2,
        Role::Leaf => 4 * cell + place.part as u32 % 8 / 2,
        Role::Prefix => 4 * cell,
        Role::Head => 4 * (0xffff_ffff - place.ptr),
    }
}

/// The place of a pointer that was loaded, after so many bytes of the key.
#[inline(always)]
fn follow(key: &[u8], p: Ptr, taken: u32) -> Advance
    requires { length key.now < 2 ^ 32 }
    ensures { result ≡ follow key.now p.0 taken }
{
    match kind_of(p) {
        Some(Kind::Content) => {
            if taken as usize == key.len() {
                Advance::On(Place {
                    role: Role::Head,
                    ptr: p.0,
                    part: 0,
                    taken,
                })
            } else {
                Advance::Absent
            }
        }
        Some(Kind::Prefix) => {
            if taken as usize <= key.len() {
                Advance::On(Place {
                    role: Role::Prefix,
                    ptr: p.0,
                    part: 0,
                    taken,
                })
            } else {
                Advance::Absent
            }
        }
        kind => node_place(key, p, taken, kind),
    }
}

#[inline(always)]
fn node_place(key: &[u8], p: Ptr, taken: u32, kind: Option<Kind>) -> Advance
    ensures { result ≡ node_place key.now p.0 taken kind (slice_get key.now taken) }
{
    let at = taken as usize;
    match kind {
        Some(Kind::Chain) if at < key.len() => Advance::On(Place {
            role: Role::Chain,
            ptr: p.0,
            part: 0,
            taken,
        }),
        Some(Kind::Sparse) if at < key.len() => Advance::On(Place {
            role: Role::Order,
            ptr: p.0,
            part: 0,
            taken,
        }),
        Some(Kind::Wide) if at < key.len() => Advance::On(Place {
            role: Role::Top,
            ptr: p.0,
            part: key[at],
            taken,
        }),
        _ => Advance::Absent,
    }
}

#[inline(always)]
fn inward(role: Role, p: Ptr, part: u8, taken: u32) -> Advance
    ensures { result ≡ inward role p.0 part taken }
{
    if p.0 == 0 {
        Advance::Absent
    } else {
        Advance::On(Place {
            role,
            ptr: p.0,
            part,
            taken,
        })
    }
}

/// The place after a prefix cell's word, which has both its pointers.
#[inline(always)]
fn prefix_step(key: &[u8], loaded: u64, taken: u32) -> Advance
    ensures { result ≡ prefix_step key.now loaded taken }
{
    if taken as usize == key.len() {
        let content = half(loaded, false);
        match kind_of(content) {
            Some(Kind::Content) => Advance::On(Place {
                role: Role::Head,
                ptr: content.0,
                part: 0,
                taken,
            }),
            _ => Advance::Absent,
        }
    } else {
        let node = half(loaded, true);
        node_place(key, node, taken, kind_of(node))
    }
}

#[inline(always)]
fn chain_step(key: &[u8], p: u32, taken: u32, loaded: u64, byte: u8) -> Advance
    requires inside { taken < length key.now }
    requires small { length key.now < 2 ^ 32 }
    ensures { result ≡ advance_in_node key.now p 0 taken loaded Role.Chain (Some byte) }
{
    let offset = p % 32;
    if offset > 27 {
        return Advance::Absent;
    }
    if chain_byte(loaded, offset as u8) != byte {
        Advance::Absent
    } else if offset == 27 {
        follow(key, half(loaded, true), taken + 1)
    } else {
        follow(key, Ptr(p + 1), taken + 1)
    }
}

#[inline(always)]
fn advance_in_node(key: &[u8], place: &Place, loaded: u64, byte: u8) -> Advance
    requires inside { place.now.taken < length key.now }
    requires small { length key.now < 2 ^ 32 }
    ensures { result ≡ advance_in_node key.now place.now.ptr place.now.part place.now.taken loaded place.now.role (Some byte) }
{
    let p = Ptr(place.ptr);
    let part = place.part;
    let taken = place.taken;
    match place.role {
        Role::Chain => chain_step(key, place.ptr, taken, loaded, byte),
        Role::Order => match sparse_find(loaded, byte) {
            Some(slot) => Advance::On(Place {
                role: Role::Slot,
                ptr: p.0,
                part: slot,
                taken,
            }),
            None => Advance::Absent,
        },
        Role::Slot => follow(key, half(loaded, part % 2 == 1), taken + 1),
        Role::Top => inward(Role::Mid, half(loaded, part / 64 % 2 == 1), part, taken),
        Role::Mid => inward(Role::Leaf, half(loaded, part / 8 % 8 % 2 == 1), part, taken),
        Role::Leaf => follow(key, half(loaded, part % 8 % 2 == 1), taken + 1),
        _ => Advance::Absent,
    }
}

/// What the place leads to for the key, given the word that it loads, by `next_word`.
///
/// It is total: any loaded word is met, and `law_falls` bounds the walk. For a place of a well-formed image and the word
/// that stands there, `law_advance` says what the outcome means.
#[tactic(auto, unfolding(crate::specs::Place::outcome_of))]
#[inline(always)]
pub fn advance(place: &Place, loaded: u64, key: &[u8]) -> Advance
    requires { length key.now < 2 ^ 32 }
    ensures { result ≡ outcome_of place.now loaded key.now }
{
    match place.role {
        Role::Root => follow(key, half(loaded, false), 0),
        Role::Prefix => prefix_step(key, loaded, place.taken),
        Role::Head => {
            let (number, length) = head_parts(loaded);
            Advance::Found(Rec {
                cell: 0xffff_ffff - place.ptr,
                number,
                length,
            })
        }
        _ => match key.get(place.taken as usize) {
            Some(&byte) => advance_in_node(key, place, loaded, byte),
            None => Advance::Absent,
        },
    }
}

/// The outcome of a place's load.
#[inline(always)]
fn load(words: &[u64], place: Place, key: &[u8]) -> Advance
    requires image { HasLedger words.now }
    requires small { length key.now < 2 ^ 32 }
    requires way { OnTheWay words.now key.now place }
    ensures { LeadsTo words.now key.now place result }
{
    advance(&place, words[next_word(&place) as usize], key)
}

/// The outcome of one load more, where the walk goes on.
#[inline(always)]
fn load_more(words: &[u64], place: Place, outcome: Advance, key: &[u8]) -> Advance
    requires image { HasLedger words.now }
    requires small { length key.now < 2 ^ 32 }
    requires leads { LeadsTo words.now key.now place outcome }
    ensures { LeadsTo words.now key.now place result }
{
    match outcome {
        Advance::On(next) => load(words, next, key),
        _ => outcome,
    }
}

/// The outcome of all loads in a node's cells, or of one load elsewhere.
#[inline(always)]
fn pass(words: &[u64], place: Place, key: &[u8]) -> Advance
    requires image { HasLedger words.now }
    requires small { length key.now < 2 ^ 32 }
    requires way { OnTheWay words.now key.now place }
    ensures { LeadsTo words.now key.now place result }
{
    match place.role {
        Role::Chain => load(words, place, key),
        Role::Order => {
            let slot = load(words, place, key);
            load_more(words, place, slot, key)
        }
        Role::Top => {
            let mid = load(words, place, key);
            let leaf = load_more(words, place, mid, key);
            load_more(words, place, leaf, key)
        }
        _ => load(words, place, key),
    }
}

/// The record of the key's last put in the image, or None where no put has the key.
pub fn lookup(words: &[u64], key: &[u8]) -> Option<Rec>
    requires image { HasLedger words.now }
    requires small { length key.now < 2 ^ 32 }
    ensures { (g : Ledger) (cells : ℕ) → IsWellFormed words.now g cells → HasLastPut g.puts key.now result }
{
    let mut place = start();
    'loads: loop {
        match pass(words, place, key) {
            Advance::On(next) => place = next,
            Advance::Found(rec) => return Some(rec),
            Advance::Absent => return None,
        }
    }
}
