//! The stores of a put, each by its place in their order. `plan` makes the value; whoever makes the stores reads it.
//!
//! It holds no word of a record or of the chain behind it: those are read off the value's bytes and the key's when they are
//! asked for. The words of the further cells stand in the caller's `FewWords`.

ghost use Rattle.std.specs.Prelude.{◌≡◌, ◌+◌, ◌*◌, ◌-◌, ◌/◌, ◌^◌, ◌<◌, ◌≤◌, [], ◌∷◌, ◌++◌, length, slice_get, slice_set, Some};
ghost use Rattle.cell_layout.specs.Cells.{record_cells, record_words, chain_cells, chain_from};
ghost use Rattle.trie_image.specs.declared.StoreKind.TheVariants.{Finish};
ghost use Rattle.trie_image.specs.declared.WordStore.{WordStore};
ghost use Rattle.trie_image.specs.After.{after};
ghost use Rattle.trie_image.specs.Stores.{store_at, prepares};
ghost use Rattle.trie_image.specs.Planned.{publishing, words_planned};

use crate::few_words::FewWords;
use crate::{StoreKind, WordStore};
use cell_layout::{joined, padded_cell, word_of_chain, word_of_record, word_of_value};
use std::marker::Model;

/// The stores of a put, in memory of a fixed size. Contracts see it as their list.
#[derive(Drop)]
pub struct PutPlan<'a> {
    pub(crate) used: u32,
    pub(crate) number: u32,
    pub(crate) value: &'a [u8],
    pub(crate) rest: &'a [u8],
    pub(crate) more: &'a FewWords,
    pub(crate) value_cells: u32,
    pub(crate) rest_cells: u32,
    pub(crate) count: u32,
    pub(crate) slot: Option<WordStore>,
    pub(crate) publish: WordStore,
}

impl<'a> Model for PutPlan<'a> {
    ghost use Rattle.std.specs.Prelude.{ℕ, ◌≡◌, ◌+◌, ◌*◌, ◌≤◌, ◌^◌, List, length};
    ghost use Rattle.trie_image.specs.declared.WordStore.{WordStore};

    ghost Value = { List WordStore };

    ghost use Rattle.cell_layout.specs.Cells.{record_cells};
    ghost use Rattle.cell_layout.specs.Cells.{chain_cells};
    ghost use Rattle.trie_image.specs.Planned.{stores_planned};

    ghost view = { λ p. stores_planned p.used p.number p.value.now p.rest.now p.more.now p.slot p.publish };

    ghost invariant = { λ p. (p.used ≤ 2 ^ 22) × (length p.value.now ≤ 65535) × (length p.rest.now ≤ 2048) × (length p.more.now ≤ 60) × (p.value_cells ≡ record_cells (length p.value.now)) × (p.rest_cells ≡ chain_cells (length p.rest.now)) × (p.count ≡ 4 * p.value_cells + 4 * p.rest_cells + length p.more.now) };
}

impl PutPlan<'_> {
    /// The number of stores.
    pub fn len(&self) -> u32
        ensures count { result ≡ length self.now }
        ensures least { 2 ≤ result }
    {
        self.count + count_last(self.slot)
    }

    /// The number of cells that the put takes.
    pub fn cells(&self) -> u32
        ensures { result ≡ (length self.now - 2) / 4 }
    {
        (self.len() - 2) / 4
    }

    /// A store by its place in the order.
    pub fn store(&self, place: u32) -> WordStore
        requires { place < length self.now }
        ensures { slice_get self.now place ≡ Some result }
    {
        if place < self.count {
            WordStore {
                word: 4 * self.used + place,
                value: word_of_plan(
                    self.used,
                    self.number,
                    self.value,
                    self.rest,
                    self.more,
                    self.value_cells,
                    self.rest_cells,
                    place,
                ),
                kind: StoreKind::Prepare,
            }
        } else {
            last_store(self.number, self.slot, self.publish, place - self.count)
        }
    }

    /// Makes the stores in the words of an image, in their order: the record, the chain, the further cells, and the last ones.
    /// What stands outside the image is left out.
    pub fn make(&self, words: &mut [u64])
        ensures { words.new ≡ after words.old self.now }
    {
        let chain = self.used + self.value_cells;
        let further = chain + self.rest_cells;
        make_record(words, 4 * self.used, self.number, self.value);
        make_chain(
            words,
            chain,
            self.rest_cells,
            self.rest,
            0xffff_ffff - self.used,
        );
        make_words(words, 4 * further, self.more.as_slice());
        make_last(words, self.number, self.slot, self.publish);
    }
}

/// The number of stores after those of the new cells.
fn count_last(slot: Option<WordStore>) -> u32
    ensures count { (publish : WordStore) → result ≡ length (publishing slot publish) + 1 }
    ensures least { 2 ≤ result }
    ensures most { result ≤ 3 }
{
    match slot {
        Some(_) => 3,
        None => 2,
    }
}

/// A word of the new cells.
fn word_of_plan(
    used: u32,
    number: u32,
    value: &[u8],
    rest: &[u8],
    more: &FewWords,
    value_cells: u32,
    rest_cells: u32,
    place: u32,
) -> u64
    requires used { used ≤ 2 ^ 22 }
    requires short { length rest.now ≤ 2048 }
    requires value { length value.now ≤ 65535 }
    requires value_cells { value_cells ≡ record_cells (length value.now) }
    requires rest_cells { rest_cells ≡ chain_cells (length rest.now) }
    requires inside { place < 4 * value_cells + 4 * rest_cells + length more.now }
    ensures { slice_get (words_planned used number value.now rest.now more.now) place ≡ Some result }
{
    if place < 4 * value_cells {
        word_of_record(number, value, place as usize)
    } else if place < 4 * value_cells + 4 * rest_cells {
        word_of_chain(
            used + value_cells,
            rest_cells,
            rest,
            0xffff_ffff - used,
            place - 4 * value_cells,
        )
    } else {
        more.at((place - 4 * value_cells - 4 * rest_cells) as usize)
    }
}

/// A store after the new cells.
fn last_store(number: u32, slot: Option<WordStore>, publish: WordStore, place: u32) -> WordStore
    requires { place < length (publishing slot publish) + 1 }
    ensures { slice_get (publishing slot publish ++ store_at 0 number Finish ∷ []) place ≡ Some result }
{
    match slot {
        Some(slot) if place == 0 => slot,
        Some(_) if place == 1 => publish,
        None if place == 0 => publish,
        _ => WordStore {
            word: 0,
            value: number as u64,
            kind: StoreKind::Finish,
        },
    }
}

/// Makes the store of a word, where the image has it.
#[inline(always)]
fn make_word(words: &mut [u64], at: u32, value: u64)
    ensures { words.new ≡ slice_set words.old at value }
{
    if (at as usize) < words.len() {
        words[at as usize] = value;
    }
}

/// Makes the stores of new words from a word on.
#[inline(always)]
fn make_words(words: &mut [u64], at: u32, new: &[u64])
    requires { at + length new.now < 2 ^ 32 }
    ensures { words.new ≡ after words.old (prepares at new.now) }
{
    'words: for (place, &word) in new.iter().enumerate() {
        make_word(words, at + place as u32, word);
    }
}

/// Makes the stores of a record.
#[inline(always)]
fn make_record(words: &mut [u64], at: u32, number: u32, value: &[u8])
    requires at { at < 2 ^ 30 }
    requires short { length value.now ≤ 65535 }
    ensures { words.new ≡ after words.old (prepares at (record_words number value.now)) }
{
    make_word(words, at, joined(number, value.len() as u32));
    let count = 4 * ((8 + value.len() as u32 + 31) / 32) - 1;
    'places: for place in 0..count {
        make_word(words, at + 1 + place, word_of_value(value, place as usize));
    }
}

/// Makes the stores of so many chain cells, which lead over the bytes to the end.
fn make_chain(words: &mut [u64], first: u32, cells: u32, bytes: &[u8], end: u32)
    requires small { first + cells < 2 ^ 26 }
    requires least { length bytes.now ≤ 28 * cells }
    requires most { 28 * cells ≤ length bytes.now + 27 }
    ensures { words.new ≡ after words.old (prepares (4 * first) (chain_from first cells bytes.now end)) }
{
    if cells == 0 {
        return;
    }
    let after = cells - 1;
    let next = if after == 0 { end } else { 32 * (first + 1) };
    let (part, rest) = bytes.split_at(bytes.len() - 28 * after as usize);
    make_words(words, 4 * first, &padded_cell(part, next));
    make_chain(words, first + 1, after, rest, end);
}

/// Makes the stores after those of the new cells.
#[inline(always)]
fn make_last(words: &mut [u64], number: u32, slot: Option<WordStore>, publish: WordStore)
    ensures { words.new ≡ after words.old (publishing slot publish ++ store_at 0 number Finish ∷ []) }
{
    if let Some(slot) = slot {
        make_word(words, slot.word, slot.value);
    }
    make_word(words, publish.word, publish.value);
    make_word(words, 0, number as u64);
}
