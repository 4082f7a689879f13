//! The stores of a put: the words of its new cells, then the store that makes them reachable, then the count of the puts.

ghost use Rattle.std.specs.Prelude.{◌≡◌, ◌+◌, ◌*◌, ◌/◌, ◌-◌, ◌^◌, ◌<◌, ◌≤◌, [], ◌∷◌, ◌++◌, length, drop, take, slice_index, slice_get, Some, IfOk};
ghost use Rattle.cell_layout.specs.Cells.{record_cells, chain_cells, chain_entry};
ghost use Rattle.trie_image.specs.Exit.{IsInside, HasFreeSlot};
ghost use Rattle.trie_image.specs.Body.{further};
ghost use Rattle.trie_image.specs.declared.StoreKind.TheVariants.{Finish};
ghost use Rattle.trie_image.specs.declared.WordStore.{WordStore};
ghost use Rattle.trie_image.specs.Stores.{store_at, field_store, rest_of, content_of, first_further, entry_of, publish_stores, stores_from, stores_of, CanPut};
ghost use Rattle.trie_image.specs.Planned.{publishing, words_planned};

use crate::exit::{Exit, Meets, exit_of, word_at};
use crate::few_words::FewWords;
use crate::further::{pointer_to_publish, push_further};
use crate::put_plan::PutPlan;
use crate::source::{SliceWords, WordSource};
use crate::{StoreKind, WordList, WordStore};
use cell_layout::{Ptr, sparse_add, sparse_count, with_half, word_of_chain, word_of_record};
use key_types::{ListOf, NoMemory};
use std::alloc::Global;
use std::marker::Model;

/// The stores of a put of the value under the key, in their order: Prepare stores, one Publish, one Finish. It takes no memory.
///
/// `used` is the number of cells that are taken. The plan keeps the words of some of the new cells in `scratch`.
pub fn plan<'a, W: WordSource>(
    from: &W,
    seat: &mut W::Seat,
    used: u32,
    key: &'a [u8],
    value: &'a [u8],
    scratch: &'a mut FewWords,
) -> PutPlan<'a>
    requires may { W.may from.now seat.old }
    requires put { CanPut (W.image from.now seat.old) used key.now value.now }
    ensures stores { result ≡ stores_of (W.image from.now seat.old) used key.now value.now }
    ensures same { seat.new ≡ seat.old }
{
    let exit = exit_of(from, seat, key);
    let byte = key.get(exit.taken as usize).copied().unwrap_or(0);
    plan_from(
        from,
        seat,
        used,
        value,
        bytes_left(key, exit),
        exit,
        byte,
        scratch,
    )
}

/// The same stores as a list. The only refusal is want of memory for it.
pub fn plan_put(
    alloc: Global,
    words: &[u64],
    used: u32,
    key: &[u8],
    value: &[u8],
) -> Result<WordList, NoMemory>
    requires { CanPut words.now used key.now value.now }
    ensures { IfOk result (λ stores. stores ≡ stores_of words.now used key.now value.now) }
{
    let mut seat = ();
    let mut scratch = FewWords::new();
    let plan = plan(
        &SliceWords { words },
        &mut seat,
        used,
        key,
        value,
        &mut scratch,
    );
    let mut stores = ListOf::new(alloc);
    'stores: for place in 0..plan.len() {
        stores.push(plan.store(place))?;
    }
    Ok(stores)
}

/// The bytes of the key that the new chain takes.
fn bytes_left(key: &[u8], exit: Exit) -> &[u8]
    ensures { result.now ≡ rest_of key.now exit.meets exit.taken }
{
    match exit.meets {
        Meets::Content | Meets::End => &[],
        Meets::Nothing | Meets::PastContent => after(key, exit.taken as usize),
        _ => after(key, exit.taken as usize + 1),
    }
}

fn after(key: &[u8], taken: usize) -> &[u8]
    ensures { result.now ≡ drop taken key.now }
{
    key.split_at(taken.min(key.len())).1
}

fn cells_of_record(value: &[u8]) -> u32
    requires { length value.now ≤ 65535 }
    ensures { result ≡ record_cells (length value.now) }
{
    (8 + value.len() as u32 + 31) / 32
}

fn cells_of_chain(rest: &[u8]) -> u32
    requires { length rest.now ≤ 2048 }
    ensures { result ≡ chain_cells (length rest.now) }
{
    (rest.len() as u32 + 27) / 28
}

/// The pointer that enters the chain of the rest from a cell on.
fn enters(first: u32, rest: &[u8], end: u32) -> u32
    requires short { length rest.now ≤ 2048 }
    requires small { first < 2 ^ 26 }
    ensures { result ≡ chain_entry first rest.now end }
{
    if rest.is_empty() {
        end
    } else {
        32 * first + (28 * cells_of_chain(rest) - rest.len() as u32)
    }
}

/// Where the new cells of a put stand: the record's content pointer, the chain's first cell and number of cells, the pointer
/// that enters the chain, and the first of the further cells.
#[derive(Clone, Copy)]
struct NewCells {
    content: u32,
    chain: u32,
    cells: u32,
    entry: u32,
    further: u32,
}

fn new_cells(used: u32, value: &[u8], rest: &[u8]) -> NewCells
    requires used { used ≤ 2 ^ 22 }
    requires short { length rest.now ≤ 2048 }
    requires value { length value.now ≤ 65535 }
    ensures content { result.content ≡ content_of used }
    ensures chain { result.chain ≡ used + record_cells (length value.now) }
    ensures cells { result.cells ≡ chain_cells (length rest.now) }
    ensures entry { result.entry ≡ entry_of used value.now rest.now }
    ensures further { result.further ≡ first_further used value.now rest.now }
{
    let content = 0xffff_ffff - used;
    let chain = used + cells_of_record(value);
    let cells = cells_of_chain(rest);
    NewCells {
        content,
        chain,
        cells,
        entry: enters(chain, rest, content),
        further: chain + cells,
    }
}

/// The stores of a put, from where the walk to its key leaves the trie.
fn plan_from<'a, W: WordSource>(
    from: &W,
    seat: &mut W::Seat,
    used: u32,
    value: &'a [u8],
    rest: &'a [u8],
    exit: Exit,
    byte: u8,
    scratch: &'a mut FewWords,
) -> PutPlan<'a>
    requires may { W.may from.now seat.old }
    requires used { used ≤ 2 ^ 22 }
    requires number { slice_index (W.image from.now seat.old) 0 < 2 ^ 22 }
    requires short { length rest.now ≤ 2048 }
    requires value { length value.now ≤ 65535 }
    requires inside { IsInside exit.stand }
    requires free { HasFreeSlot (W.image from.now seat.old) exit.meets exit.stand }
    ensures stores { result ≡ stores_from (W.image from.now seat.old) used value.now rest.now exit byte }
    ensures same { seat.new ≡ seat.old }
{
    let number = word_at(from, seat, 0, 0) as u32 + 1;
    let new = new_cells(used, value, rest);
    let p = pointer_to_publish(exit, new.further, new.content, new.entry);
    more_words(
        scratch,
        from,
        seat,
        exit,
        byte,
        new.further,
        new.content,
        new.entry,
    );
    let more: &'a FewWords = scratch;
    let (slot, publish) = publish_of(from, seat, exit, byte, new.entry, p);
    let count = 4 * (new.chain - used) + 4 * new.cells + more.len() as u32;
    PutPlan {
        used,
        number,
        value,
        rest,
        more,
        value_cells: new.chain - used,
        rest_cells: new.cells,
        count,
        slot,
        publish,
    }
}

fn more_words<W: WordSource>(
    out: &mut FewWords,
    from: &W,
    seat: &mut W::Seat,
    exit: Exit,
    byte: u8,
    first: u32,
    content: u32,
    entry: u32,
)
    requires may { W.may from.now seat.old }
    requires first { first < 2 ^ 26 }
    ensures words { out.new ≡ further (W.image from.now seat.old) exit.meets exit.stand byte first content entry }
    ensures same { seat.new ≡ seat.old }
{
    out.clear();
    push_further(out, from, seat, exit, byte, first, content, entry);
}

/// The store of a pointer into a field of a cell.
fn store_of_field<W: WordSource>(
    from: &W,
    seat: &mut W::Seat,
    cell: u32,
    place: u8,
    p: u32,
    kind: StoreKind,
) -> WordStore
    requires may { W.may from.now seat.old }
    requires cell { cell < 2 ^ 27 }
    requires place { place < 8 }
    ensures store { result ≡ field_store (W.image from.now seat.old) cell place p kind }
    ensures same { seat.new ≡ seat.old }
{
    let word = place as u32 / 2;
    WordStore {
        word: 4 * cell + word,
        value: with_half(word_at(from, seat, cell, word), place % 2 == 1, Ptr(p)),
        kind,
    }
}

/// The stores that make the new cells reachable: a free slot's, where there is one, and the publishing one.
fn publish_of<W: WordSource>(
    from: &W,
    seat: &mut W::Seat,
    exit: Exit,
    byte: u8,
    entry: u32,
    p: u32,
) -> (Option<WordStore>, WordStore)
    requires may { W.may from.now seat.old }
    requires inside { IsInside exit.stand }
    requires free { HasFreeSlot (W.image from.now seat.old) exit.meets exit.stand }
    ensures stores { publishing result.0 result.1 ≡ publish_stores (W.image from.now seat.old) exit.meets exit.stand byte entry p }
    ensures same { seat.new ≡ seat.old }
{
    let s = exit.stand;
    match exit.meets {
        Meets::Sparse => {
            let order = word_at(from, seat, s.cell, 3);
            let slot = store_of_field(
                from,
                seat,
                s.cell,
                sparse_count(order),
                entry,
                StoreKind::Prepare,
            );
            let publish = WordStore {
                word: 4 * s.cell + 3,
                value: sparse_add(order, byte).0,
                kind: StoreKind::Publish,
            };
            (Some(slot), publish)
        }
        _ => (
            None,
            store_of_field(from, seat, s.cell, s.field, p, StoreKind::Publish),
        ),
    }
}

#[cfg(test)]
mod tests;
