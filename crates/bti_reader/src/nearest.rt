//! The searches that come back to what they passed: `floor`, `before` and `ceiling`. On their way along the key they
//! keep the last thing to which they may come back, so that no node is asked for twice.
ghost use Rattle.std.specs.Prelude.{◌≡◌, ◌<◌, ◌≤◌, ◌+◌, ◌^◌, length, Err, None, IfOk, if◌then◌else◌};
ghost use Rattle.outside.specs.Causes.{Rose};
ghost use Rattle.page_cache.specs.Pages.{Honest};
ghost use Rattle.bti_nodes.specs.Grammar.{IsBack};
ghost use Rattle.bti_reader.specs.Searches.{first_path, last_path, below_from, above_from, floor_in, before_in, ceiling_in};
ghost use Rattle.bti_reader.specs.Steps.{FindsHit, FindsSpare, found_len, kept_spare, SpareFits, WithinFound, WithinSpare};

use crate::ask::{Hit, Question, ask};
use crate::paths::{first_path, last_path};
use bti_nodes::Child;
use data_file::DataError;
use outside::{FileId, Store};
use page_cache::PageCache;

/// What a search comes back to, where it finds nothing farther on.
#[derive(Clone, Copy, Debug, PartialEq, Eq)]
pub enum Spare {
    /// Nothing.
    Nothing,
    /// A node's own path.
    Own(Hit),
    /// The paths from a position on, behind that many bytes.
    From(u64, usize),
}

/// What a search comes back to after a node: the child beside its way, or the node's own path, or what was kept before.
fn kept(
    spare: Spare,
    beside: Option<Child>,
    hit: Option<Hit>,
    position: u64,
    passed: usize,
) -> Spare
    requires back { IsBack position beside }
    requires room { passed + position < 2 ^ 64 }
    ensures { result ≡ kept_spare spare beside hit position passed }
{
    match beside {
        Some(child) => Spare::From(position - child.distance, passed + 1),
        None => match hit {
            Some(hit) => Spare::Own(hit),
            None => spare,
        },
    }
}

/// The last path of what was kept.
fn take_last<K: Store>(
    cache: &mut PageCache,
    store: &mut K,
    file: FileId,
    root: u64,
    spare: Spare,
) -> Result<Option<Hit>, DataError>
    requires honest { Honest (K.files store.old) cache.old }
    requires fits { SpareFits root spare }
    ensures found { FindsSpare (K.files store.old) file last_path spare result }
    ensures honest { Honest (K.files store.new) cache.new }
    ensures files { K.files store.new ≡ K.files store.old }
    ensures reads { IfOk result (λ hit. K.reads store.new ≤ K.reads store.old + found_len hit) }
    ensures within { WithinSpare (K.files store.old) file last_path spare (K.reads store.old) (K.reads store.new) }
    ensures later { K.faults store.old ≤ K.faults store.new }
    ensures fault { result ≡ Err DataError.StoreFault → Rose (K.faults store.old) (K.faults store.new) }
{
    match spare {
        Spare::Nothing => Ok(None),
        Spare::Own(hit) => Ok(Some(hit)),
        Spare::From(start, passed) => last_path(cache, store, file, start, passed),
    }
}

/// The first path of what was kept.
fn take_first<K: Store>(
    cache: &mut PageCache,
    store: &mut K,
    file: FileId,
    root: u64,
    spare: Spare,
) -> Result<Option<Hit>, DataError>
    requires honest { Honest (K.files store.old) cache.old }
    requires fits { SpareFits root spare }
    ensures found { FindsSpare (K.files store.old) file first_path spare result }
    ensures honest { Honest (K.files store.new) cache.new }
    ensures files { K.files store.new ≡ K.files store.old }
    ensures reads { IfOk result (λ hit. K.reads store.new ≤ K.reads store.old + found_len hit) }
    ensures within { WithinSpare (K.files store.old) file first_path spare (K.reads store.old) (K.reads store.new) }
    ensures later { K.faults store.old ≤ K.faults store.new }
    ensures fault { result ≡ Err DataError.StoreFault → Rose (K.faults store.old) (K.faults store.new) }
{
    match spare {
        Spare::Nothing => Ok(None),
        Spare::Own(hit) => Ok(Some(hit)),
        Spare::From(start, passed) => first_path(cache, store, file, start, passed),
    }
}

/// What is found at the key itself, where it counts.
fn if_counts(itself: bool, hit: Option<Hit>) -> Option<Hit>
    ensures { result ≡ (if itself then hit else None) }
{
    if itself { hit } else { None }
}

/// The greatest path below the key, or the key itself where it counts.
fn greatest_below<K: Store>(
    cache: &mut PageCache,
    store: &mut K,
    file: FileId,
    root: u64,
    key: &[u8],
    itself: bool,
) -> Result<Option<Hit>, DataError>
    requires { Honest (K.files store.old) cache.old }
    ensures found { FindsHit (K.files store.old) file 0 (λ bytes. below_from itself bytes root key.now) result }
    ensures honest { Honest (K.files store.new) cache.new }
    ensures files { K.files store.new ≡ K.files store.old }
    ensures reads { IfOk result (λ hit. K.reads store.new ≤ K.reads store.old + length key.now + 1 + found_len hit) }
    ensures within { WithinFound (K.files store.old) file 0 (λ bytes. below_from itself bytes root key.now)
        (K.reads store.old + (length key.now + 1)) (K.reads store.new) }
    ensures later { K.faults store.old ≤ K.faults store.new }
    ensures fault { result ≡ Err DataError.StoreFault → Rose (K.faults store.old) (K.faults store.new) }
{
    let mut position = root;
    let mut passed = 0usize;
    let mut rest = key;
    let mut spare = Spare::Nothing;
    'nodes: while let [byte, after @ ..] = rest {
        let turn = ask(cache, store, file, position, Question::Floor(*byte), passed)?;
        spare = kept(spare, turn.beside, turn.hit, position, passed);
        match turn.child {
            Some(child) => {
                position -= child.distance;
                passed += 1;
                rest = after;
            }
            None => return take_last(cache, store, file, root, spare),
        }
    }
    let turn = ask(cache, store, file, position, Question::End, passed)?;
    let here = if_counts(itself, turn.hit);
    if here.is_some() {
        return Ok(here);
    }
    take_last(cache, store, file, root, spare)
}

/// The greatest path of the trie that isn't above the key.
#[tactic(auto, unfolding(crate::specs::Searches::floor_in))]
pub fn floor<K: Store>(
    cache: &mut PageCache,
    store: &mut K,
    file: FileId,
    root: u64,
    key: &[u8],
) -> Result<Option<Hit>, DataError>
    requires { Honest (K.files store.old) cache.old }
    ensures found { FindsHit (K.files store.old) file 0 (λ bytes. floor_in bytes root key.now) result }
    ensures honest { Honest (K.files store.new) cache.new }
    ensures files { K.files store.new ≡ K.files store.old }
    ensures reads { IfOk result (λ hit. K.reads store.new ≤ K.reads store.old + length key.now + 1 + found_len hit) }
    ensures within { WithinFound (K.files store.old) file 0 (λ bytes. floor_in bytes root key.now)
        (K.reads store.old + (length key.now + 1)) (K.reads store.new) }
    ensures later { K.faults store.old ≤ K.faults store.new }
    ensures fault { result ≡ Err DataError.StoreFault → Rose (K.faults store.old) (K.faults store.new) }
{
    greatest_below(cache, store, file, root, key, true)
}

/// The greatest path of the trie that is below the key.
#[tactic(auto, unfolding(crate::specs::Searches::before_in))]
pub fn before<K: Store>(
    cache: &mut PageCache,
    store: &mut K,
    file: FileId,
    root: u64,
    key: &[u8],
) -> Result<Option<Hit>, DataError>
    requires { Honest (K.files store.old) cache.old }
    ensures found { FindsHit (K.files store.old) file 0 (λ bytes. before_in bytes root key.now) result }
    ensures honest { Honest (K.files store.new) cache.new }
    ensures files { K.files store.new ≡ K.files store.old }
    ensures reads { IfOk result (λ hit. K.reads store.new ≤ K.reads store.old + length key.now + 1 + found_len hit) }
    ensures within { WithinFound (K.files store.old) file 0 (λ bytes. before_in bytes root key.now)
        (K.reads store.old + (length key.now + 1)) (K.reads store.new) }
    ensures later { K.faults store.old ≤ K.faults store.new }
    ensures fault { result ≡ Err DataError.StoreFault → Rose (K.faults store.old) (K.faults store.new) }
{
    greatest_below(cache, store, file, root, key, false)
}

/// The least path of the trie that isn't below the key.
#[tactic(auto, unfolding(crate::specs::Searches::ceiling_in))]
pub fn ceiling<K: Store>(
    cache: &mut PageCache,
    store: &mut K,
    file: FileId,
    root: u64,
    key: &[u8],
) -> Result<Option<Hit>, DataError>
    requires { Honest (K.files store.old) cache.old }
    ensures found { FindsHit (K.files store.old) file 0 (λ bytes. ceiling_in bytes root key.now) result }
    ensures honest { Honest (K.files store.new) cache.new }
    ensures files { K.files store.new ≡ K.files store.old }
    ensures reads { IfOk result (λ hit. K.reads store.new ≤ K.reads store.old + length key.now + 1 + found_len hit) }
    ensures within { WithinFound (K.files store.old) file 0 (λ bytes. ceiling_in bytes root key.now)
        (K.reads store.old + (length key.now + 1)) (K.reads store.new) }
    ensures later { K.faults store.old ≤ K.faults store.new }
    ensures fault { result ≡ Err DataError.StoreFault → Rose (K.faults store.old) (K.faults store.new) }
{
    let mut position = root;
    let mut passed = 0usize;
    let mut rest = key;
    let mut spare = Spare::Nothing;
    'nodes: while let [byte, after @ ..] = rest {
        let turn = ask(
            cache,
            store,
            file,
            position,
            Question::Ceiling(*byte),
            passed,
        )?;
        spare = kept(spare, turn.beside, None, position, passed);
        match turn.child {
            Some(child) => {
                position -= child.distance;
                passed += 1;
                rest = after;
            }
            None => return take_first(cache, store, file, root, spare),
        }
    }
    first_path(cache, store, file, position, passed)
}
