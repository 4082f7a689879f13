//! The searches that go one way: `exact`, and the first and the last path from a node on, which the other searches
//! come to. Each asks one node after the other, and each node is one read of the store at most.
ghost use Rattle.std.specs.Prelude.{◌≡◌, ◌<◌, ◌≤◌, ◌+◌, ◌^◌, length, Err, IfOk, IsSome};
ghost use Rattle.outside.specs.Causes.{Rose};
ghost use Rattle.page_cache.specs.Pages.{Honest};
ghost use Rattle.bti_reader.specs.Searches.{exact_in, first_path, last_path};
ghost use Rattle.bti_reader.specs.Steps.{FindsHit, question_at, WithinFound, WithinPath};

use crate::ask::{Hit, Question, ask};
use data_file::DataError;
use outside::{FileId, Store};
use page_cache::PageCache;

/// What a search along a key asks a node.
fn question_at(rest: &[u8]) -> Question
    ensures { result ≡ question_at rest.now }
{
    match rest {
        [byte, ..] => Question::At(*byte),
        [] => Question::End,
    }
}

/// The first path of the trie that is a prefix of the key, as a lookup of a whole key takes it.
pub fn exact<K: Store>(
    cache: &mut PageCache,
    store: &mut K,
    file: FileId,
    root: u64,
    key: &[u8],
) -> Result<Option<Hit>, DataError>
    requires { Honest (K.files store.old) cache.old }
    ensures found { FindsHit (K.files store.old) file 0 (λ bytes. exact_in bytes root key.now) result }
    ensures honest { Honest (K.files store.new) cache.new }
    ensures files { K.files store.new ≡ K.files store.old }
    ensures reads { K.reads store.new ≤ K.reads store.old + (length key.now + 1) }
    ensures later { K.faults store.old ≤ K.faults store.new }
    ensures fault { result ≡ Err DataError.StoreFault → Rose (K.faults store.old) (K.faults store.new) }
{
    let mut position = root;
    let mut passed = 0usize;
    let mut rest = key;
    'nodes: loop {
        let turn = ask(cache, store, file, position, question_at(rest), passed)?;
        if turn.hit.is_some() {
            return Ok(turn.hit);
        }
        match rest {
            [_, after @ ..] => match turn.child {
                Some(child) => {
                    position -= child.distance;
                    passed += 1;
                    rest = after;
                }
                None => return Ok(None),
            },
            [] => return Ok(None),
        }
    }
}

/// The first path from a node on, behind that many bytes.
pub fn first_path<K: Store>(
    cache: &mut PageCache,
    store: &mut K,
    file: FileId,
    start: u64,
    taken: usize,
) -> Result<Option<Hit>, DataError>
    requires honest { Honest (K.files store.old) cache.old }
    requires room { taken + start < 2 ^ 64 }
    ensures found { FindsHit (K.files store.old) file taken (λ bytes. first_path bytes start) result }
    ensures some { IfOk result IsSome }
    ensures honest { Honest (K.files store.new) cache.new }
    ensures files { K.files store.new ≡ K.files store.old }
    ensures reads { WithinPath (K.reads store.old) (K.reads store.new) taken result }
    ensures within { WithinFound (K.files store.old) file taken (λ bytes. first_path bytes start)
        (K.reads store.old + 1) (K.reads store.new + taken) }
    ensures later { K.faults store.old ≤ K.faults store.new }
    ensures fault { result ≡ Err DataError.StoreFault → Rose (K.faults store.old) (K.faults store.new) }
{
    let mut position = start;
    let mut passed = taken;
    'nodes: loop {
        let turn = ask(cache, store, file, position, Question::Least, passed)?;
        if turn.hit.is_some() {
            return Ok(turn.hit);
        }
        match turn.child {
            Some(child) => {
                position -= child.distance;
                passed += 1;
            }
            None => return Ok(None),
        }
    }
}

/// The last path from a node on, behind that many bytes.
pub fn last_path<K: Store>(
    cache: &mut PageCache,
    store: &mut K,
    file: FileId,
    start: u64,
    taken: usize,
) -> Result<Option<Hit>, DataError>
    requires honest { Honest (K.files store.old) cache.old }
    requires room { taken + start < 2 ^ 64 }
    ensures found { FindsHit (K.files store.old) file taken (λ bytes. last_path bytes start) result }
    ensures some { IfOk result IsSome }
    ensures honest { Honest (K.files store.new) cache.new }
    ensures files { K.files store.new ≡ K.files store.old }
    ensures reads { WithinPath (K.reads store.old) (K.reads store.new) taken result }
    ensures within { WithinFound (K.files store.old) file taken (λ bytes. last_path bytes start)
        (K.reads store.old + 1) (K.reads store.new + taken) }
    ensures later { K.faults store.old ≤ K.faults store.new }
    ensures fault { result ≡ Err DataError.StoreFault → Rose (K.faults store.old) (K.faults store.new) }
{
    let mut position = start;
    let mut passed = taken;
    'nodes: loop {
        let turn = ask(cache, store, file, position, Question::Greatest, passed)?;
        match turn.child {
            Some(child) => {
                position -= child.distance;
                passed += 1;
            }
            None => return Ok(turn.hit),
        }
    }
}
