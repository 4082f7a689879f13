//! An image that owns its words, for one thread: puts and lookups in turn. Programs and tests that need no readers beside the
//! writer call it.
//!
//! At any time its words are those of a well-formed image for the puts that were made, and word 0 counts them.
#![tactic(auto)]

ghost use Rattle.std.specs.Prelude.{◌≡◌, ◌↔◌, ℕ, ◌*◌, ◌≤◌, ◌<◌, ◌^◌, List, [], length, IsTrue, IfOk};
ghost use Rattle.trie_image.specs.declared.Put.{Put};
ghost use Rattle.trie_image.specs.Puts.{HasLastPut};
ghost use Rattle.owned_image.specs.Held.{HoldsPuts, TakesPut, PutsOne};

use key_types::NoMemory;
use std::alloc::Global;
use std::marker::Model;
use trie_image::few_words::FewWords;
use trie_image::plan::plan;
use trie_image::source::SliceWords;
use trie_image::walk::lookup;
use trie_image::{Rec, cost};

/// The words of an image and its number of cells taken. Contracts see it as a `Held`.
///
/// It is well formed for the puts that were made, at any time.
#[derive(Debug, Drop)]
pub struct Image {
    words: Vec<u64>,
    used: u32,
    scratch: FewWords,
}

impl Model for Image {
    ghost use Rattle.owned_image.specs.Held.{Held, HasPuts};

    ghost Value = { Held };

    ghost view = { λ i. record { words = i.words.items; used = i.used } };

    ghost invariant = { λ i. HasPuts record { words = i.words.items; used = i.used } };
}

impl Image {
    /// The image of so many cells without puts.
    pub fn new(alloc: Global, cells: u32) -> Result<Image, NoMemory>
        requires least { 1 ≤ cells }
        requires most { cells ≤ 2 ^ 22 }
        ensures puts { IfOk result (λ image. HoldsPuts image []) }
        ensures words { IfOk result (λ image. length image.words ≡ 4 * cells) }
    {
        let words = vec![in alloc; 0u64; 4 * cells as usize]?;
        Ok(Image {
            words,
            used: 1,
            scratch: FewWords::new(),
        })
    }

    /// The number of cells taken, cell 0 among them.
    pub fn used(&self) -> u32
        ensures { result ≡ self.now.used }
    {
        self.used
    }

    /// Whether the image takes a put of such a key and value: they are within their limits, and there is room for the put's cost.
    pub fn takes(&self, key: &[u8], value: &[u8]) -> bool
        ensures { IsTrue result ↔ TakesPut self.now key.now value.now }
    {
        let cells = self.words.len() / 4;
        !key.is_empty()
            && key.len() <= 2048
            && value.len() <= 65_535
            && (self.used + cost(key.len(), value.len())) as usize <= cells
    }

    /// PutsOne the value under the key: makes the stores of its plan in their order. It takes no memory.
    pub fn put(&mut self, key: &[u8], value: &[u8])
        requires { TakesPut self.old key.now value.now }
        ensures { PutsOne self.old self.new key.now value.now }
    {
        let mut seat = ();
        let from = SliceWords {
            words: self.words.as_slice(),
        };
        let plan = plan(&from, &mut seat, self.used, key, value, &mut self.scratch);
        plan.make(self.words.as_mut_slice());
        self.used += plan.cells();
    }

    /// The record of the key's last put, or None where no put has the key.
    pub fn lookup(&self, key: &[u8]) -> Option<Rec>
        requires { length key.now < 2 ^ 32 }
        ensures { (puts : List Put) → HoldsPuts self.now puts → HasLastPut puts key.now result }
    {
        lookup(self.words.as_slice(), key)
    }
}

#[cfg(test)]
mod tests;
