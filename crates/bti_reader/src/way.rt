//! The way down to a path, and the steps of a walk along it. `Walk` calls these: it finds where the next paths begin
//! from the nodes of the last path's way, and goes down from there. A way has one node more than its path has bytes.
ghost use Rattle.std.specs.Prelude.{◌≡◌, ◌<◌, ◌≤◌, ◌+◌, ◌++◌, ◌∷◌, [], get_or, length, Err, IfOk, IfSome};
ghost use Rattle.outside.specs.Causes.{Rose};
ghost use Rattle.page_cache.specs.Pages.{Honest};
ghost use Rattle.bti_nodes.specs.Grammar.{IsBack};
ghost use Rattle.bti_reader.specs.Searches.{first_path};
ghost use Rattle.bti_reader.specs.Walks.{path_after, start_of, StartsIn, FindsPath};
ghost use Rattle.bti_reader.specs.Ways.{StartsBelow, IsWayIn, LeadsToHit};

use crate::ask::{Hit, Question, ask};
use bti_nodes::Child;
use data_file::DataError;
use key_types::{ByteList, KeyBytes, ListOf, NoMemory};
use outside::{FileId, Store};
use page_cache::PageCache;
use std::alloc::Global;

/// A path of a trie, where its node stands, and the number there.
#[derive(Debug, Drop)]
pub struct PathHit {
    pub path: KeyBytes,
    pub node: u64,
    pub number: i64,
}

/// The way down to a path: the path, and the positions of its nodes from the root on.
#[derive(Debug, Drop)]
pub struct Way {
    pub path: ByteList,
    pub nodes: ListOf<u64>,
}

/// Where the paths above a way's path begin: at a node, behind that many bytes of the path and a byte.
#[derive(Clone, Copy, Debug, PartialEq, Eq)]
pub struct Start {
    pub start: u64,
    pub passed: usize,
    pub byte: u8,
}

/// A hit with its path.
fn path_hit(path: ByteList, hit: Hit) -> PathHit
    ensures { result ≡ record { path = path; node = hit.node; number = hit.number } }
{
    PathHit {
        path,
        node: hit.node,
        number: hit.number,
    }
}

/// The first path from a node on, behind the bytes that are taken. The nodes of its way from there on are put behind
/// the others.
pub fn first_into<K: Store>(
    cache: &mut PageCache,
    store: &mut K,
    file: FileId,
    start: u64,
    taken: ByteList,
    nodes: &mut ListOf<u64>,
) -> Result<Option<PathHit>, DataError>
    requires honest { Honest (K.files store.old) cache.old }
    requires count { length nodes.old ≡ length taken }
    requires way { IsWayIn (K.files store.old) file taken (nodes.old ++ start ∷ []) }
    ensures found { FindsPath (K.files store.old) file taken (λ bytes. first_path bytes start) result }
    ensures count { IfOk result (λ hit. IfSome hit (λ h. length nodes.new ≡ length h.path + 1)) }
    ensures way { LeadsToHit (K.files store.old) file nodes.new result }
    ensures root { IfOk result (λ hit. get_or nodes.new 0 0 ≡ get_or (nodes.old ++ start ∷ []) 0 0) }
    ensures honest { Honest (K.files store.new) cache.new }
    ensures files { K.files store.new ≡ K.files store.old }
    ensures later { K.faults store.old ≤ K.faults store.new }
    ensures fault { result ≡ Err DataError.StoreFault → Rose (K.faults store.old) (K.faults store.new) }
{
    let mut position = start;
    let mut path = taken;
    'down: loop {
        nodes.push(position)?;
        let turn = ask(cache, store, file, position, Question::Least, 0)?;
        if let Some(hit) = turn.hit {
            return Ok(Some(path_hit(path, hit)));
        }
        match turn.child {
            Some(child) => {
                position -= child.distance;
                path.push(child.byte)?;
            }
            None => return Ok(None),
        }
    }
}

/// Where the paths below a node's child begin.
fn start_of(child: Child, position: u64, passed: usize) -> Start
    requires { IsBack position (Some child) }
    ensures { result ≡ start_of child position passed }
{
    Start {
        start: position - child.distance,
        passed,
        byte: child.byte,
    }
}

/// Where the paths above a way's path begin: below its last node, or else beside the way, as near to its end as can be.
fn next_start<K: Store>(
    cache: &mut PageCache,
    store: &mut K,
    file: FileId,
    path: &[u8],
    nodes: &[u64],
) -> Result<Option<Start>, DataError>
    requires honest { Honest (K.files store.old) cache.old }
    requires count { length nodes.now ≡ length path.now + 1 }
    requires way { IsWayIn (K.files store.old) file path.now nodes.now }
    ensures found { StartsIn (K.files store.old) file path.now (path_after path.now nodes.now) result }
    ensures fits { IfOk result (λ start. IfSome start (λ s. s.passed ≤ length path.now)) }
    ensures child { StartsBelow (K.files store.old) file nodes.now result }
    ensures honest { Honest (K.files store.new) cache.new }
    ensures files { K.files store.new ≡ K.files store.old }
    ensures later { K.faults store.old ≤ K.faults store.new }
    ensures fault { result ≡ Err DataError.StoreFault → Rose (K.faults store.old) (K.faults store.new) }
{
    let mut depth = path.len();
    let last = nodes[depth];
    let below = ask(cache, store, file, last, Question::Least, depth)?;
    if let Some(child) = below.child {
        return Ok(Some(start_of(child, last, depth)));
    }
    'up: while depth > 0 {
        depth -= 1;
        let position = nodes[depth];
        let question = Question::Ceiling(path[depth]);
        let turn = ask(cache, store, file, position, question, depth)?;
        if let Some(child) = turn.beside {
            return Ok(Some(start_of(child, position, depth)));
        }
    }
    Ok(None)
}

/// A list of some nodes.
fn nodes_of(alloc: Global, nodes: &[u64]) -> Result<ListOf<u64>, NoMemory>
    ensures { IfOk result (λ made. made ≡ nodes.now) }
{
    let mut made = Vec::new(alloc);
    made.extend_from_slice(nodes)?;
    Ok(ListOf::from_vec(made))
}

/// The least path above a way's path; the nodes of its way take the place of those in `reached`.
pub fn after<K: Store>(
    alloc: Global,
    cache: &mut PageCache,
    store: &mut K,
    file: FileId,
    path: &[u8],
    nodes: &[u64],
    reached: &mut ListOf<u64>,
) -> Result<Option<PathHit>, DataError>
    requires honest { Honest (K.files store.old) cache.old }
    requires count { length nodes.now ≡ length path.now + 1 }
    requires way { IsWayIn (K.files store.old) file path.now nodes.now }
    ensures found { FindsPath (K.files store.old) file [] (path_after path.now nodes.now) result }
    ensures count { IfOk result (λ hit. IfSome hit (λ h. length reached.new ≡ length h.path + 1)) }
    ensures way { LeadsToHit (K.files store.old) file reached.new result }
    ensures root { IfOk result (λ hit. IfSome hit (λ h. get_or reached.new 0 0 ≡ get_or nodes.now 0 0)) }
    ensures honest { Honest (K.files store.new) cache.new }
    ensures files { K.files store.new ≡ K.files store.old }
    ensures later { K.faults store.old ≤ K.faults store.new }
    ensures fault { result ≡ Err DataError.StoreFault → Rose (K.faults store.old) (K.faults store.new) }
{
    let Some(next) = next_start(cache, store, file, path, nodes)? else {
        return Ok(None);
    };
    let (front, _) = path.split_at(next.passed);
    let mut taken = ByteList::new(alloc);
    taken.extend(front)?;
    taken.push(next.byte)?;
    let (above, _) = nodes.split_at(next.passed + 1);
    *reached = nodes_of(alloc, above)?;
    first_into(cache, store, file, next.start, taken, reached)
}
