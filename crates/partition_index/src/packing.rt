//! Partitions go to the packer: each under the shortest prefix that neither neighbour begins with.
ghost use Rattle.std.specs.Prelude.{◌≡◌, ◌≢◌, ◌≤◌, ◌<◌, ◌^◌, ◌-◌, ◌≤ℤ◌, ◌<ℤ◌, negsuc, pos, [], length, IfOk, IfSome, Err, option_copied};
ghost use Rattle.outside.specs.Causes.{Rose};
ghost use Rattle.byte_order.specs.Laws.{DiffersFrom};
ghost use Rattle.byte_order.specs.Strings.{Differ};
ghost use Rattle.bti_nodes.specs.Payloads.{signed_bytes};
ghost use Rattle.page_packer.specs.Packs.{AddsEntry, Takes};
ghost use Rattle.partition_index.specs.Entries.{entry_between};
ghost use Rattle.partition_index.specs.File.{index_trie};
ghost use Rattle.partition_index.specs.Writing.{AppendsTrie, Indexing, PacksIndex, string_before, last_in};

use crate::newest::Newest;
use bti_nodes::{PackError, signed_payload};
use byte_order::unique_len;
use outside::Store;
use page_packer::{Packed, Packer};

/// Packs the last partition, which stands before the string `next` or is the last of all.
pub fn pack_last<K: Store>(
    packer: &mut Packer,
    newest: &Newest,
    next: Option<&[u8]>,
    store: &mut K,
) -> Result<(), PackError>
    requires key { Takes packer.old
        (entry_between (string_before newest.now) (last_in newest.now) (option_copied next)).key }
    requires some { newest.now.last ≢ [] }
    requires before { DiffersFrom newest.now.last (string_before newest.now) }
    requires behind { IfSome next (λ next. Differ newest.now.last next.now) }
    requires low { negsuc (2 ^ 55 - 1) ≤ℤ newest.now.number }
    requires high { newest.now.number <ℤ pos (2 ^ 55) }
    ensures added { AddsEntry packer.old packer.new (K.files store.old) (K.files store.new) result
        (entry_between (string_before newest.now) (last_in newest.now) (option_copied next.entry)).key
        (signed_bytes newest.now.number) }
    ensures reads { K.reads store.new ≡ K.reads store.old }
    ensures later { K.faults store.old ≤ K.faults store.new }
    ensures fault { result ≡ Err PackError.StoreFault → Rose (K.faults store.old) (K.faults store.new) }
{
    let last = newest.last.as_slice();
    let unique = unique_len(newest.before(), last, next);
    packer.add(&last[..unique], signed_payload(newest.number), store)
}

/// Packs the last partition, where there is one, and ends the trie.
pub fn pack_all<K: Store>(
    packer: Packer,
    newest: &Newest,
    store: &mut K,
) -> Result<Packed, PackError>
    requires { (w : Indexing) × PacksIndex packer newest.now w }
    ensures trie { IfOk result (λ packed. (w : Indexing) → PacksIndex packer newest.now w
        → (packed.end ≡ length (index_trie w.partitions).bytes) × (packed.root ≡ (index_trie w.partitions).root)) }
    ensures written { (w : Indexing) → PacksIndex packer newest.now w
        → AppendsTrie (K.files store.old) (K.files store.new) w.file result w.partitions }
    ensures reads { K.reads store.new ≡ K.reads store.old }
    ensures later { K.faults store.old ≤ K.faults store.new }
    ensures fault { result ≡ Err PackError.StoreFault → Rose (K.faults store.old) (K.faults store.new) }
{
    let mut packer = packer;
    if newest.count == 0 {
        return Ok(Packed { root: 0, end: 0 });
    }
    pack_last(&mut packer, newest, None, store)?;
    packer.finish(store)
}
