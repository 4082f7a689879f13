//! The command `load`: the puts of a script are made in the shards of a table, beside them its gets are answered, and the table
//! becomes the files of a generation.
ghost use Rattle.std.specs.Prelude.{◌≡◌, ◌≤◌, ◌<◌, ◌^◌, ℕ, length, IfOk, IfErr, IfSome, Err, IsTrue, MatchResult, Ok};
ghost use Rattle.outside.specs.Causes.{Rose};
ghost use Rattle.outside.specs.Told.{WhereTold};
ghost use Rattle.script_text.specs.Script.{puts_of};
ghost use Rattle.key_types.specs.Columns.{columns_of};
ghost use Rattle.shard_table.specs.Together.{shard_entries};
ghost use Rattle.table_files.specs.SchemaFile.{HaveSchemaFile};
ghost use Rattle.table_files.specs.There.{any_there};
ghost use Rattle.flush_walk.specs.Growing.{NoneOf};
ghost use Rattle.table_tool.specs.First.{first_generation};
ghost use Rattle.table_tool.specs.Outside.{outside_of};
ghost use Rattle.table_tool.specs.Input.{IsSpelled};
ghost use Rattle.table_tool.specs.Request.{CanLoad, asked_of};
ghost use Rattle.table_tool.specs.Rows.{rows_of};
ghost use Rattle.table_tool.specs.Loading.{ok_line, loading, Answers, ChangesFiles, FillsShards, FitsShards, IsEarly, Loaded, LoadEnds, LoadsOrRefuses, IsExists, KeepsFiles, StopsLoad};

use crate::first::FIRST_GENERATION;
use crate::input::take_script;
use crate::request::LoadRequest;
use crate::saying::{print, refuse};
use crate::status::Status;
use bti_nodes::PackError;
use flush_walk::flush;
use key_types::{ByteList, NoMemory, Schema};
use outside::{Failed, Gate, Sink, Source, Store};
use row_text::put_number;
use script_run::{RunError, run_script};
use script_text::Script;
use shard_table::FrozenTable;
use std::alloc::Global;
use std::thread::Threads;
use table_files::any_there;

/// The line of so many puts, rows and partitions.
fn ok_line(alloc: Global, puts: u64, rows: u64, partitions: u64) -> Result<ByteList, NoMemory>
    ensures { IfOk result (λ line. line ≡ ok_line puts rows partitions) }
{
    let mut line = ByteList::new(alloc);
    put_number(&mut line, b"ok puts ", puts)?;
    put_number(&mut line, b" rows ", rows)?;
    put_number(&mut line, b" partitions ", partitions)?;
    line.push(b'\n')?;
    Ok(line)
}

/// Writes the files of a table that is closed, which has the entries of the script's puts, and gives their line.
fn write_files<K: Store>(
    alloc: Global,
    schema: &Schema,
    readers: u32,
    script: &Script,
    table: &FrozenTable,
    store: &mut K,
) -> Result<ByteList, PackError>
    requires columns { HaveSchemaFile (columns_of schema.now) }
    requires spelled { IsSpelled (columns_of schema.now) readers script.now }
    requires reader { 1 ≤ readers }
    requires some { 0 < length table.now }
    requires entries { shard_entries table.now ≡ rows_of (puts_of script.now.batches) }
    requires none { NoneOf first_generation (K.files store.old) }
    ensures loaded { IfOk result (Loaded (columns_of schema.now) (puts_of script.now.batches) (K.files store.old) (K.files store.new)) }
    ensures changes { WhereTold (K.files store.old) (K.files store.new) (ChangesFiles (columns_of schema.now) (Ok script.now)) }
    ensures later { K.faults store.old ≤ K.faults store.new }
    ensures fault { result ≡ Err PackError.StoreFault → Rose (K.faults store.old) (K.faults store.new) }
{
    let counts = flush(alloc, table, schema, FIRST_GENERATION, store)?;
    Ok(ok_line(alloc, script.puts, counts.rows, counts.partitions)?)
}

/// Runs the batches of a script, whose answers are printed, writes the files of its puts, and gives their line.
fn load_script<R: Threads + Sync, O: Sink, K: Store, G: Gate>(
    rt: &R,
    alloc: Global,
    request: LoadRequest,
    script: &Script,
    gate: &G,
    out: &mut O,
    store: &mut K,
) -> Result<ByteList, Status>
    requires can { CanLoad request }
    requires spelled { IsSpelled (columns_of request.schema) request.readers script.now }
    requires none { NoneOf first_generation (K.files store.old) }
    ensures loads { LoadsOrRefuses (asked_of request) result (Ok script.now) (K.files store.old) (K.files store.new) }
    ensures answers { WhereTold (O.written out.old) (O.written out.new) (Answers (asked_of request) result (Ok script.now)) }
    ensures full { (line : ℕ) → result ≡ Err (Status.Full line) → FillsShards (asked_of request) (Ok script.now) line }
    ensures room { FitsShards (asked_of request) (Ok script.now) → (line : ℕ) → result ≡ Err (Status.Full line) → ⊥ }
    ensures stops { IfErr result StopsLoad }
    ensures not_exists { ¬ (result ≡ Err Status.Exists) }
    ensures read { ¬ (result ≡ Err Status.SourceFault) }
    ensures kept { IfErr result (λ status. KeepsFiles status (K.files store.old) (K.files store.new)) }
    ensures changes { WhereTold (K.files store.old) (K.files store.new) (ChangesFiles (columns_of request.schema) (Ok script.now)) }
    ensures later { K.faults store.old ≤ K.faults store.new }
    ensures fault { result ≡ Err Status.StoreFault → Rose (K.faults store.old) (K.faults store.new) }
    ensures sink_later { O.faults out.old ≤ O.faults out.new }
    ensures sink_fault { result ≡ Err Status.SinkFault → Rose (O.faults out.old) (O.faults out.new) }
{
    let LoadRequest {
        schema,
        bounds,
        cells,
        readers,
    } = request;
    let batches = script.batches.as_slice();
    let table = match run_script(
        rt, alloc, &schema, batches, bounds, cells, readers, gate, out,
    ) {
        Ok(table) => table,
        Err(RunError::Full(line)) => return Err(Status::Full(line)),
        Err(RunError::SinkFault) => return Err(Status::SinkFault),
        Err(RunError::NoMemory) => return Err(Status::NoMemory),
    };
    match write_files(alloc, &schema, readers, script, &table, store) {
        Ok(line) => Ok(line),
        Err(PackError::StoreFault) => Err(Status::StoreFault),
        Err(PackError::NoMemory) => Err(Status::NoMemory),
    }
}

/// The same of the source's script.
fn load_source<R: Threads + Sync, S: Source, O: Sink, K: Store, G: Gate>(
    rt: &R,
    alloc: Global,
    request: LoadRequest,
    source: &mut S,
    gate: &G,
    out: &mut O,
    store: &mut K,
) -> Result<ByteList, Status>
    requires can { CanLoad request }
    requires none { NoneOf first_generation (K.files store.old) }
    ensures loads { IfSome (S.left source.old) (λ bytes. LoadsOrRefuses (asked_of request) result (loading (asked_of request) bytes) (K.files store.old) (K.files store.new)) }
    ensures answers { IfSome (S.left source.old) (λ bytes. WhereTold (O.written out.old) (O.written out.new) (Answers (asked_of request) result (loading (asked_of request) bytes))) }
    ensures early { IfErr result (λ status. IsEarly status → O.written out.new ≡ O.written out.old) }
    ensures full { IfSome (S.left source.old) (λ bytes. (line : ℕ) → result ≡ Err (Status.Full line) → FillsShards (asked_of request) (loading (asked_of request) bytes) line) }
    ensures room { IfSome (S.left source.old) (λ bytes. FitsShards (asked_of request) (loading (asked_of request) bytes) → (line : ℕ) → result ≡ Err (Status.Full line) → ⊥) }
    ensures stops { IfErr result StopsLoad }
    ensures not_exists { ¬ (result ≡ Err Status.Exists) }
    ensures kept { IfErr result (λ status. KeepsFiles status (K.files store.old) (K.files store.new)) }
    ensures changes { IfSome (S.left source.old) (λ bytes. WhereTold (K.files store.old) (K.files store.new) (ChangesFiles (columns_of request.schema) (loading (asked_of request) bytes))) }
    ensures later { S.faults source.old ≤ S.faults source.new }
    ensures store_later { K.faults store.old ≤ K.faults store.new }
    ensures sink_later { O.faults out.old ≤ O.faults out.new }
    ensures fault { result ≡ Err Status.SourceFault → Rose (S.faults source.old) (S.faults source.new) }
    ensures store_fault { result ≡ Err Status.StoreFault → Rose (K.faults store.old) (K.faults store.new) }
    ensures sink_fault { result ≡ Err Status.SinkFault → Rose (O.faults out.old) (O.faults out.new) }
{
    let script = match take_script(alloc, &request.schema, request.readers, source) {
        Ok(script) => script,
        Err(status) => return Err(status),
    };
    load_script(rt, alloc, request, &script, gate, out, store)
}

/// The same, where no file is there, and else Exists. `gen` calls it too.
pub fn load_once<R: Threads + Sync, S: Source, O: Sink, K: Store, G: Gate>(
    rt: &R,
    alloc: Global,
    request: LoadRequest,
    source: &mut S,
    gate: &G,
    out: &mut O,
    store: &mut K,
) -> Result<ByteList, Status>
    requires can { CanLoad request }
    ensures exists_only { IfSome (K.files store.old) (λ old. result ≡ Err Status.Exists → IsTrue (any_there first_generation old)) }
    ensures exists { IfSome (K.files store.old) (λ old. IsTrue (any_there first_generation old)
        → MatchResult result (λ _. ⊥) IsExists × (K.files store.new ≡ K.files store.old) × (source.new ≡ source.old)) }
    ensures unread { result ≡ Err Status.Exists → source.new ≡ source.old }
    ensures loads { IfSome (S.left source.old) (λ bytes. LoadsOrRefuses (asked_of request) result (loading (asked_of request) bytes) (K.files store.old) (K.files store.new)) }
    ensures answers { IfSome (S.left source.old) (λ bytes. WhereTold (O.written out.old) (O.written out.new) (Answers (asked_of request) result (loading (asked_of request) bytes))) }
    ensures early { IfErr result (λ status. IsEarly status → O.written out.new ≡ O.written out.old) }
    ensures full { IfSome (S.left source.old) (λ bytes. (line : ℕ) → result ≡ Err (Status.Full line) → FillsShards (asked_of request) (loading (asked_of request) bytes) line) }
    ensures room { IfSome (S.left source.old) (λ bytes. FitsShards (asked_of request) (loading (asked_of request) bytes) → (line : ℕ) → result ≡ Err (Status.Full line) → ⊥) }
    ensures stops { IfErr result StopsLoad }
    ensures kept { IfErr result (λ status. KeepsFiles status (K.files store.old) (K.files store.new)) }
    ensures changes { IfSome (S.left source.old) (λ bytes. WhereTold (K.files store.old) (K.files store.new) (ChangesFiles (columns_of request.schema) (loading (asked_of request) bytes))) }
    ensures later { S.faults source.old ≤ S.faults source.new }
    ensures store_later { K.faults store.old ≤ K.faults store.new }
    ensures sink_later { O.faults out.old ≤ O.faults out.new }
    ensures fault { result ≡ Err Status.SourceFault → Rose (S.faults source.old) (S.faults source.new) }
    ensures store_fault { result ≡ Err Status.StoreFault → Rose (K.faults store.old) (K.faults store.new) }
    ensures sink_fault { result ≡ Err Status.SinkFault → Rose (O.faults out.old) (O.faults out.new) }
{
    match any_there(store, FIRST_GENERATION) {
        Ok(false) => load_source(rt, alloc, request, source, gate, out, store),
        Ok(true) => Err(Status::Exists),
        Err(Failed) => Err(Status::StoreFault),
    }
}

/// Does `load`. The threads that it starts are joined before their answers are printed.
pub fn load<R: Threads + Sync, S: Source, O: Sink, K: Store, G: Gate>(
    rt: &R,
    alloc: Global,
    request: LoadRequest,
    source: &mut S,
    out: &mut O,
    store: &mut K,
    gate: &G,
) -> Status
    requires can { CanLoad request }
    ensures { LoadEnds (asked_of request)
        (outside_of (S.left source.old) (S.faults source.old) (O.written out.old) (O.faults out.old) (K.files store.old) (K.faults store.old) (K.reads store.old))
        (outside_of (S.left source.new) (S.faults source.new) (O.written out.new) (O.faults out.new) (K.files store.new) (K.faults store.new) (K.reads store.new))
        result }
{
    match load_once(rt, alloc, request, source, gate, out, store) {
        Ok(line) => print(out, line.as_slice()),
        Err(Status::NoMemory) => Status::NoMemory,
        Err(Status::SinkFault) => Status::SinkFault,
        Err(status) => refuse(alloc, out, status),
    }
}
