//! The top calls.
ghost use Rattle.std.specs.Prelude.{◌≡◌, ◌⊎◌};
ghost use Rattle.table_tool.specs.Outside.{outside_of};
ghost use Rattle.table_tool.specs.Request.{AreRefused, AsksStore, LoadsScript, SaysLoad};
ghost use Rattle.table_tool.specs.Run.{RunEnds};

use crate::check::check;
use crate::generate::{generate, print_script};
use crate::get::get;
use crate::key::key;
use crate::list::list;
use crate::load::load;
use crate::request::{Request, read_request, says_load};
use crate::saying::refuse;
use crate::scan::scan;
use crate::status::Status;
use command_line::WordsError;
use key_types::NoMemory;
use outside::{Gate, Sink, Source, Store};
use std::alloc::Global;
use std::thread::Threads;

/// Does a command that starts no thread: any but `load`, and `gen` with `--print`. It never waits, and always returns.
///
/// The words are those behind the program's name. The promise is that of `run`.
pub fn run_query<S: Source, O: Sink, K: Store>(
    alloc: Global,
    words: &[String],
    source: &mut S,
    out: &mut O,
    store: &mut K,
) -> Status
    requires { ¬ (LoadsScript words.now) }
    ensures ends { RunEnds words.now
        (outside_of (S.left source.old) (S.faults source.old) (O.written out.old) (O.faults out.old) (K.files store.old) (K.faults store.old) (K.reads store.old))
        (outside_of (S.left source.new) (S.faults source.new) (O.written out.new) (O.faults out.new) (K.files store.new) (K.faults store.new) (K.reads store.new))
        result }
    // `list`, `key`, `gen --print` and refused words ask the store nothing.
    ensures untouched { ¬ (AsksStore words.now) → store.new ≡ store.old }
{
    match read_request(alloc, words) {
        Ok(Request::List(request)) => list(alloc, &request.schema, request.cells, source, out),
        Ok(Request::Load(_)) => unreachable!(),
        Ok(Request::Get(text)) => get(alloc, text.as_str(), out, store),
        Ok(Request::Scan(bounds)) => scan(alloc, &bounds, out, store),
        Ok(Request::Check) => check(alloc, out, store),
        Ok(Request::Key(asked)) => key(alloc, &asked, out),
        Ok(Request::Print(script)) => print_script(alloc, script, out),
        Ok(Request::Gen(_)) => unreachable!(),
        Err(WordsError::Usage) => refuse(alloc, out, Status::Usage),
        Err(WordsError::NoMemory) => Status::NoMemory,
    }
}

/// Does `load`, or `gen` without `--print`, or refuses the words. It starts threads and joins them.
///
/// The words are those behind the program's name. The promise is that of `run`.
pub fn run_load<R: Threads + Sync, S: Source, O: Sink, K: Store, G: Gate>(
    rt: &R,
    alloc: Global,
    words: &[String],
    source: &mut S,
    out: &mut O,
    store: &mut K,
    gate: &G,
) -> Status
    requires { SaysLoad words.now ⊎ AreRefused words.now }
    ensures ends { RunEnds words.now
        (outside_of (S.left source.old) (S.faults source.old) (O.written out.old) (O.faults out.old) (K.files store.old) (K.faults store.old) (K.reads store.old))
        (outside_of (S.left source.new) (S.faults source.new) (O.written out.new) (O.faults out.new) (K.files store.new) (K.faults store.new) (K.reads store.new))
        result }
    // Refused words ask the store nothing.
    ensures untouched { ¬ (AsksStore words.now) → store.new ≡ store.old }
{
    match read_request(alloc, words) {
        Ok(Request::Load(request)) => load(rt, alloc, request, source, out, store, gate),
        Ok(Request::List(_)) => unreachable!(),
        Ok(Request::Get(_)) => unreachable!(),
        Ok(Request::Scan(_)) => unreachable!(),
        Ok(Request::Check) => unreachable!(),
        Ok(Request::Key(_)) => unreachable!(),
        Ok(Request::Print(_)) => unreachable!(),
        Ok(Request::Gen(request)) => generate(rt, alloc, request, out, store, gate),
        Err(WordsError::Usage) => refuse(alloc, out, Status::Usage),
        Err(WordsError::NoMemory) => Status::NoMemory,
    }
}

/// Does the command that the words ask for, and answers how it ended: `run_load` for `load` and for `gen` without
/// `--print`, and `run_query` for all other words.
///
/// The words are those behind the program's name. Text and fault lines go to the sink.
pub fn run<R: Threads + Sync, S: Source, O: Sink, K: Store, G: Gate>(
    rt: &R,
    alloc: Global,
    words: &[String],
    source: &mut S,
    out: &mut O,
    store: &mut K,
    gate: &G,
) -> Status
    ensures ends { RunEnds words.now
        (outside_of (S.left source.old) (S.faults source.old) (O.written out.old) (O.faults out.old) (K.files store.old) (K.faults store.old) (K.reads store.old))
        (outside_of (S.left source.new) (S.faults source.new) (O.written out.new) (O.faults out.new) (K.files store.new) (K.faults store.new) (K.reads store.new))
        result }
    // `list`, `key`, `gen --print` and refused words ask the store nothing.
    ensures untouched { ¬ (AsksStore words.now) → store.new ≡ store.old }
{
    match says_load(alloc, words) {
        Ok(true) => run_load(rt, alloc, words, source, out, store, gate),
        Ok(false) => run_query(alloc, words, source, out, store),
        Err(NoMemory) => Status::NoMemory,
    }
}
