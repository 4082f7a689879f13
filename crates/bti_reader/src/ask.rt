//! A node is asked for: the one step of all searches. It reads the page in which the node stands, and tells what the
//! node answers to the search's question, or that no node begins there and why.
ghost use Rattle.std.specs.Prelude.{◌≡◌, ◌<◌, ◌≤◌, ◌+◌, ◌^◌, ◌/◌, ◌%◌, drop, length, Ok, Err, IfOk, IfSome};
ghost use Rattle.outside.specs.Causes.{Rose};
ghost use Rattle.page_cache.specs.Pages.{Honest};
ghost use Rattle.bti_nodes.specs.Grammar.{IsBack};
ghost use Rattle.bti_reader.specs.Steps.{damage_of, payload_number, hit_at, first_way, second_way, turn_of, turn_here, turn_in_file, IsOpen, AnswersIn, data_error};

use bti_nodes::{Cause, Child, Damage, NodeView, node_of, read_signed, read_unsigned};
use data_file::DataError;
use outside::{FileId, Part, Store};
use page_cache::{PageCache, ReadError};

/// What a search found: how many bytes its path has, where its node stands, and the number there.
#[derive(Clone, Copy, Debug, PartialEq, Eq)]
pub struct Hit {
    pub path_len: usize,
    pub node: u64,
    pub number: i64,
}

/// What a search asks of a node.
#[derive(Clone, Copy, Debug, PartialEq, Eq)]
pub enum Question {
    /// No child.
    End,
    /// The child under the byte.
    At(u8),
    /// The child under the byte, and the one below it.
    Floor(u8),
    /// The child under the byte, and the one above it.
    Ceiling(u8),
    /// The child under the least byte.
    Least,
    /// The child under the greatest byte.
    Greatest,
}

/// What a node answers: its own path, the child in which the search goes on, and the one that it keeps beside it.
#[derive(Clone, Copy, Debug, PartialEq, Eq)]
pub struct Turn {
    pub hit: Option<Hit>,
    pub child: Option<Child>,
    pub beside: Option<Child>,
}

/// The number of a payload.
fn number_of(part: Part, payload: &[u8]) -> i64
    requires some { 0 < length payload.now }
    requires few { length payload.now < 8 }
    ensures { result ≡ payload_number part payload.now }
{
    match part {
        Part::Rows => read_unsigned(payload) as i64,
        _ => read_signed(payload),
    }
}

/// The node's own path behind that many bytes, where it has a payload.
fn hit_at(part: Part, passed: usize, position: u64, payload: &[u8]) -> Option<Hit>
    requires { length payload.now < 8 }
    ensures { result ≡ hit_at part passed position payload.now }
{
    match payload {
        [] => None,
        _ => Some(Hit {
            path_len: passed,
            node: position,
            number: number_of(part, payload),
        }),
    }
}

/// The child in which the search goes on.
fn first_way(node: &NodeView<'_>, question: Question) -> Option<Child>
    ensures { result ≡ first_way question node.now.places }
{
    match question {
        Question::End => None,
        Question::At(byte) | Question::Floor(byte) | Question::Ceiling(byte) => node.find(byte),
        Question::Least => node.first(),
        Question::Greatest => node.last(),
    }
}

/// The child that the search keeps beside it.
fn second_way(node: &NodeView<'_>, question: Question) -> Option<Child>
    ensures { result ≡ second_way question node.now.places }
{
    match question {
        Question::Floor(byte) => node.below(byte),
        Question::Ceiling(byte) => node.above(byte),
        _ => None,
    }
}

/// What a node answers.
fn turn_of(
    node: &NodeView<'_>,
    part: Part,
    question: Question,
    passed: usize,
    position: u64,
) -> Turn
    ensures { result ≡ turn_of part question passed position node.now }
{
    Turn {
        hit: hit_at(part, passed, position, node.payload()),
        child: first_way(node, question),
        beside: second_way(node, question),
    }
}

/// Damage at a position at which no node begins.
fn damage_of(part: Part, position: u64, cause: Cause) -> DataError
    ensures { result ≡ damage_of part record { position = position; cause = cause } }
{
    DataError::Damaged(Damage {
        part,
        position,
        cause,
    })
}

/// What the node at a place of a page answers, or why none begins there.
fn ask_in(
    page: &[u8],
    at: usize,
    position: u64,
    part: Part,
    question: Question,
    passed: usize,
) -> Result<Turn, DataError>
    ensures turn { result ≡ turn_here part question passed position (drop at page.now) }
    ensures back { IfOk result (λ t. IsBack position t.child × IsBack position t.beside) }
    ensures open { IfOk result (IsOpen question) }
    ensures hit { IfOk result (λ t. IfSome t.hit (λ h. h.path_len ≡ passed)) }
{
    match node_of(page, at, position) {
        Ok(node) => Ok(turn_of(&node, part, question, passed, position)),
        Err(e) => Err(damage_of(part, position, Cause::from(e))),
    }
}

/// Why a page was not had.
fn data_error(e: ReadError) -> DataError
    ensures { result ≡ data_error e }
{
    match e {
        ReadError::StoreFault => DataError::StoreFault,
        ReadError::NoMemory => DataError::NoMemory,
    }
}

/// What the node at a position of a file answers, by one read of the store at most.
pub fn ask<K: Store>(
    cache: &mut PageCache,
    store: &mut K,
    file: FileId,
    position: u64,
    question: Question,
    passed: usize,
) -> Result<Turn, DataError>
    requires { Honest (K.files store.old) cache.old }
    ensures turn { AnswersIn (K.files store.old) file (turn_in_file file.part question passed position) result }
    ensures back { IfOk result (λ t. IsBack position t.child × IsBack position t.beside) }
    ensures open { IfOk result (IsOpen question) }
    ensures hit { IfOk result (λ t. IfSome t.hit (λ h. h.path_len ≡ passed)) }
    ensures honest { Honest (K.files store.new) cache.new }
    ensures files { K.files store.new ≡ K.files store.old }
    ensures reads { K.reads store.new ≤ K.reads store.old + 1 }
    ensures later { K.faults store.old ≤ K.faults store.new }
    ensures fault { result ≡ Err DataError.StoreFault → Rose (K.faults store.old) (K.faults store.new) }
{
    match cache.page(store, file, position / 4096) {
        Ok(page) => ask_in(
            page,
            (position % 4096) as usize,
            position,
            file.part,
            question,
            passed,
        ),
        Err(e) => Err(data_error(e)),
    }
}
