//! The words, read.
ghost use Rattle.std.specs.Prelude.{◌≡◌, ◌↔◌, map, IfOk};
ghost use Rattle.std.specs.List.{list_any};
ghost use Rattle.std.specs.String.{string_bytes};
ghost use Rattle.clap.specs.Words.{found_of, kind_of, rows_of, subcommand_rows_of};
ghost use Rattle.command_line.specs.Reading.{command_of, found_in, gen_in, get_in, is_refused, key_in, list_in, load_in, said_by, scan_in};
ghost use Rattle.command_line.specs.Said.{AnswersCommand, IsLimited, said_of};

use crate::command::{
    Command, GenArguments, GetArguments, KeyArguments, ListArguments, LoadArguments, ScanArguments,
    WordsError,
};
use crate::declared::tool;
use crate::getters::{
    cells_in, chosen, is_set, needed_number, needed_text, one_way, readers_in, rows_and_gets,
    some_text, text_or_none,
};
use clap::error::ErrorKind;
use clap::{ArgMatches, Error};
use std::alloc::Global;

#[tactic(auto, unfolding(crate::specs::Reading::is_refused))]
fn is_refused(word: &str) -> bool
    ensures { result ≡ is_refused word.now }
{
    matches!(word, "help" | "--help" | "-h" | "--version" | "-V" | "--")
}

fn has_refused(words: &[String]) -> bool
    ensures { result ≡ list_any is_refused (map string_bytes words.now) }
{
    let mut rest = words;
    'words: while let [word, after @ ..] = rest {
        if is_refused(word.as_str()) {
            return true;
        }
        rest = after;
    }
    false
}

/// `NoMemory` exactly where `clap` ran out of memory.
fn error_of(e: Error) -> WordsError
    ensures { (result ≡ WordsError.NoMemory) ↔ (kind_of e ≡ ErrorKind.OutOfMemory) }
{
    match e.kind() {
        ErrorKind::OutOfMemory => WordsError::NoMemory,
        _ => WordsError::Usage,
    }
}

fn matches_of<'a>(alloc: Global, words: &'a [String]) -> Result<ArgMatches<'a>, WordsError>
    ensures { AnswersCommand subcommand_rows_of result (found_in (map string_bytes words.entry.now)) }
{
    match tool(alloc)?.try_get_matches_from(words) {
        Ok(matches) => Ok(matches),
        Err(e) => Err(error_of(e)),
    }
}

fn list(alloc: Global, matches: &ArgMatches) -> Result<Command, WordsError>
    ensures limits { IfOk result IsLimited }
    ensures said { AnswersCommand said_of result (list_in (rows_of (found_of matches.now))) }
{
    let schema = needed_text(alloc, matches, "schema")?;
    let cells = cells_in(matches)?;
    Ok(Command::List(ListArguments { schema, cells }))
}

fn load(alloc: Global, matches: &ArgMatches) -> Result<Command, WordsError>
    ensures limits { IfOk result IsLimited }
    ensures said { AnswersCommand said_of result (load_in (rows_of (found_of matches.now))) }
{
    let schema = needed_text(alloc, matches, "schema")?;
    let bounds = text_or_none(alloc, matches, "bounds")?;
    let cells = cells_in(matches)?;
    let readers = readers_in(matches)?;
    Ok(Command::Load(LoadArguments {
        schema,
        bounds,
        cells,
        readers,
    }))
}

fn key(alloc: Global, matches: &ArgMatches) -> Result<Command, WordsError>
    ensures limits { IfOk result IsLimited }
    ensures said { AnswersCommand said_of result (key_in (rows_of (found_of matches.now))) }
{
    let schema = needed_text(alloc, matches, "schema")?;
    let way = one_way(alloc, matches)?;
    let clustering = is_set(matches, "clustering");
    Ok(Command::Key(KeyArguments {
        schema,
        clustering,
        way,
    }))
}

fn get(alloc: Global, matches: &ArgMatches) -> Result<Command, WordsError>
    ensures limits { IfOk result IsLimited }
    ensures said { AnswersCommand said_of result (get_in (rows_of (found_of matches.now))) }
{
    let key = needed_text(alloc, matches, "key")?;
    Ok(Command::Get(GetArguments { key }))
}

fn scan(alloc: Global, matches: &ArgMatches) -> Result<Command, WordsError>
    ensures limits { IfOk result IsLimited }
    ensures said { AnswersCommand said_of result (scan_in (rows_of (found_of matches.now))) }
{
    let from = some_text(alloc, matches, "from")?;
    let to = some_text(alloc, matches, "to")?;
    Ok(Command::Scan(ScanArguments { from, to }))
}

fn generate(matches: &ArgMatches) -> Result<Command, WordsError>
    ensures limits { IfOk result IsLimited }
    ensures said { AnswersCommand said_of result (gen_in (rows_of (found_of matches.now))) }
{
    let seed = needed_number(matches, "seed", 0, u64::MAX)?;
    let (count, gets) = rows_and_gets(matches)?;
    let cells = cells_in(matches)?;
    let readers = readers_in(matches)?;
    let print = is_set(matches, "print");
    Ok(Command::Gen(GenArguments {
        seed,
        count,
        gets,
        print,
        cells,
        readers,
    }))
}

fn command(alloc: Global, name: &str, matches: &ArgMatches) -> Result<Command, WordsError>
    ensures limits { IfOk result IsLimited }
    ensures said { AnswersCommand said_of result (said_by name.now (rows_of (found_of matches.now))) }
{
    match name {
        "list" => list(alloc, matches),
        "load" => load(alloc, matches),
        "get" => get(alloc, matches),
        "scan" => scan(alloc, matches),
        "check" => Ok(Command::Check),
        "key" => key(alloc, matches),
        "gen" => generate(matches),
        _ => Err(WordsError::Usage),
    }
}

/// The command that the words ask for. `Usage` comes exactly where a word asks for help or a version,
/// where the declared command line does not take the words, or where a value is refused.
pub fn read_words(alloc: Global, words: &[String]) -> Result<Command, WordsError>
    ensures limits { IfOk result IsLimited }
    ensures said { AnswersCommand said_of result (command_of (map string_bytes words.now)) }
{
    if has_refused(words) {
        return Err(WordsError::Usage);
    }
    let matches = matches_of(alloc, words)?;
    match chosen(&matches) {
        Some((name, inner)) => command(alloc, name, inner),
        None => Err(WordsError::Usage),
    }
}
