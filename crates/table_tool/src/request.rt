//! What the words ask for.
ghost use Rattle.std.specs.Prelude.{◌≡◌, List, IfErr, IfOk};
ghost use Rattle.std.specs.declared.string.String.{String};
ghost use Rattle.std.specs.declared.alloc.Global.{Global};
ghost use Rattle.std.specs.String.{string_bytes};
ghost use Rattle.key_types.specs.Columns.{columns_of};
ghost use Rattle.command_line.specs.Said.{AreCells, AreReaders, IsLimited, said_of, way_of};
ghost use Rattle.key_tool.specs.Shown.{kinds_in};
ghost use Rattle.table_tool.specs.Request.{Asks, CanLoad, CanRun, IsGenerated, ReadsBounds, ReadsKey, Say, ReadsSchema, TellsLoad, asked_of, part_kinds, said_way, words_error};

use bounds_text::{BoundsError, read_bounds};
use command_line::{
    Command, GenArguments, KeyArguments, LoadArguments, ScanArguments, WordsError, read_words,
};
use key_tool::{KeyPart, KeyWay};
use key_types::{NoMemory, Schema};
use schema_text::{SchemaError, law_schema_texts, read_schema};
use shard_table::KeyList;
use std::alloc::Global;

/// What `list` is asked for.
#[derive(Drop)]
pub struct ListRequest {
    pub schema: Schema,
    /// The cells of its shard.
    pub cells: u32,
}

/// What `load` is asked for.
#[derive(Drop)]
pub struct LoadRequest {
    pub schema: Schema,
    /// The strings of the partitions at which shards end and begin.
    pub bounds: KeyList,
    /// The cells of each shard.
    pub cells: u32,
    pub readers: u32,
}

/// The numbers of a generated script.
#[derive(Clone, Copy)]
pub struct GeneratedScript {
    pub seed: u64,
    /// How many rows are put.
    pub count: u32,
    /// How many lines read one.
    pub gets: u32,
}

/// What `gen` is asked for where its script is loaded.
#[derive(Drop)]
pub struct GenRequest {
    pub script: GeneratedScript,
    pub load: LoadRequest,
}

/// What `key` is asked for.
#[derive(Drop)]
pub struct KeyRequest {
    pub schema: Schema,
    pub part: KeyPart,
    pub way: KeyWay,
    /// The list or the string, as its text.
    pub text: String,
}

/// A command whose texts are accepted.
#[derive(Drop)]
pub enum Request {
    /// Print the rows of a script.
    List(ListRequest),
    /// Answer the gets of a script, and write the files of its rows.
    Load(LoadRequest),
    /// Print the value that the files have at a key, which is given as its text.
    Get(String),
    /// Print the rows of the files between two bounds.
    Scan(ScanArguments),
    /// Check the files against each other.
    Check,
    /// Print the string of components, or the components of a string.
    Key(KeyRequest),
    /// Print a generated script.
    Print(GeneratedScript),
    /// Do what `load` does of a generated script.
    Gen(GenRequest),
}

/// A text that is refused as a schema is Usage.
fn words_error(e: SchemaError) -> WordsError
    ensures { result ≡ words_error e }
{
    match e {
        SchemaError::TooLong(_)
        | SchemaError::BadText(_)
        | SchemaError::TooMany
        | SchemaError::TooDeep => WordsError::Usage,
        SchemaError::NoMemory => WordsError::NoMemory,
    }
}

/// The schema of a text in the words, or Usage.
fn schema_of(alloc: Global, text: &str) -> Result<Schema, WordsError>
    ensures { ReadsSchema text.now result }
{
    match read_schema(alloc, text.as_bytes()) {
        Ok(schema) => Ok(schema),
        Err(e) => Err(words_error(e)),
    }
}

/// The part of the key that the words name.
fn part_of(clustering: bool) -> KeyPart
    ensures { (schema : Schema) → kinds_in result schema ≡ part_kinds clustering (columns_of schema) }
{
    if clustering {
        KeyPart::Clustering
    } else {
        KeyPart::Partition
    }
}

/// The way that the words name, and its text.
fn way_and_text(way: command_line::KeyWay) -> (KeyWay, String)
    ensures { way_of way ≡ said_way result.0 (string_bytes result.1) }
{
    match way {
        command_line::KeyWay::Encode(list) => (KeyWay::Encode, list),
        command_line::KeyWay::Decode(digits) => (KeyWay::Decode, digits),
    }
}

/// What the words of `key` ask for, or Usage.
fn key_request(alloc: Global, arguments: KeyArguments) -> Result<Request, WordsError>
    ensures { ReadsKey arguments result }
{
    let schema = schema_of(alloc, arguments.schema.as_str())?;
    let part = part_of(arguments.clustering);
    let (way, text) = way_and_text(arguments.way);
    Ok(Request::Key(KeyRequest {
        schema,
        part,
        way,
        text,
    }))
}

/// The bounds of a text in the words, or Usage.
fn bounds_of(alloc: Global, schema: &Schema, text: &str) -> Result<KeyList, WordsError>
    ensures { ReadsBounds (columns_of schema.now) text.now result }
{
    match read_bounds(alloc, schema, text) {
        Ok(bounds) => Ok(bounds),
        Err(BoundsError::Refused) => Err(WordsError::Usage),
        Err(BoundsError::NoMemory) => Err(WordsError::NoMemory),
    }
}

/// What the words of `load` ask for, or Usage.
fn load_request(alloc: Global, arguments: LoadArguments) -> Result<Request, WordsError>
    requires { IsLimited (Command.Load arguments) }
    ensures asks { (words : List (String Global)) → Say words (said_of (Command.Load arguments)) → Asks words result }
    ensures can { IfOk result CanRun }
{
    let schema = schema_of(alloc, arguments.schema.as_str())?;
    let bounds = bounds_of(alloc, &schema, arguments.bounds.as_str())?;
    Ok(Request::Load(LoadRequest {
        schema,
        bounds,
        cells: arguments.cells,
        readers: arguments.readers,
    }))
}

/// What `load` is asked for of a generated script.
fn generated_load(alloc: Global, cells: u32, readers: u32) -> Result<LoadRequest, WordsError>
    requires cells { AreCells cells }
    requires readers { AreReaders readers }
    ensures asks { IfOk result (λ load. IsGenerated (asked_of load) × (load.cells ≡ cells) × (load.readers ≡ readers)) }
    ensures can { IfOk result CanLoad }
    ensures memory { IfErr result (λ e. e ≡ WordsError.NoMemory) }
{
    law_schema_texts();
    let schema = schema_of(alloc, "(text, int; bigint reversed; text)")?;
    let bounds = bounds_of(alloc, &schema, "('u3', 0) ('u5', 0) ('u8', 0)")?;
    Ok(LoadRequest {
        schema,
        bounds,
        cells,
        readers,
    })
}

/// What the words of `gen` ask for.
fn gen_request(alloc: Global, arguments: GenArguments) -> Result<Request, WordsError>
    requires { IsLimited (Command.Gen arguments) }
    ensures asks { (words : List (String Global)) → Say words (said_of (Command.Gen arguments)) → Asks words result }
    ensures can { IfOk result CanRun }
{
    let script = GeneratedScript {
        seed: arguments.seed,
        count: arguments.count,
        gets: arguments.gets,
    };
    if arguments.print {
        return Ok(Request::Print(script));
    }
    let load = generated_load(alloc, arguments.cells, arguments.readers)?;
    Ok(Request::Gen(GenRequest { script, load }))
}

/// What the words ask for, or Usage.
pub fn read_request(alloc: Global, words: &[String]) -> Result<Request, WordsError>
    ensures asks { Asks words.now result }
    ensures can { IfOk result CanRun }
{
    match read_words(alloc, words)? {
        Command::List(arguments) => {
            let schema = schema_of(alloc, arguments.schema.as_str())?;
            let cells = arguments.cells;
            Ok(Request::List(ListRequest { schema, cells }))
        }
        Command::Load(arguments) => load_request(alloc, arguments),
        Command::Get(arguments) => Ok(Request::Get(arguments.key)),
        Command::Scan(arguments) => Ok(Request::Scan(arguments)),
        Command::Check => Ok(Request::Check),
        Command::Key(arguments) => key_request(alloc, arguments),
        Command::Gen(arguments) => gen_request(alloc, arguments),
    }
}

/// Whether the words are those of `load`, or of a `gen` that does what `load` does; their schema isn't looked at.
pub fn says_load(alloc: Global, words: &[String]) -> Result<bool, NoMemory>
    ensures { IfOk result (TellsLoad words.now) }
{
    match read_words(alloc, words) {
        Ok(Command::Load(_)) => Ok(true),
        Ok(Command::Gen(arguments)) => Ok(!arguments.print),
        Ok(Command::List(_)) | Ok(Command::Get(_)) | Ok(Command::Scan(_)) => Ok(false),
        Ok(Command::Check) | Ok(Command::Key(_)) => Ok(false),
        Err(WordsError::Usage) => Ok(false),
        Err(WordsError::NoMemory) => Err(NoMemory),
    }
}
