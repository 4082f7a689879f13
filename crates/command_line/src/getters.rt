//! Values of the matches, by what `clap` says of the words.
ghost use Rattle.std.specs.Prelude.{◌≡◌, ◌≤◌, codes, option_map, IfOk, Ok};
ghost use Rattle.clap.specs.Words.{found_of, rows_of, first_of, subcommand_rows_of};
ghost use Rattle.std.specs.String.{string_bytes};
ghost use Rattle.command_line.specs.Numbers.{cells_in, needed_number, number_in, readers_in, rows_and_gets};
ghost use Rattle.command_line.specs.Reading.{is_set, needed_text, one_way, text_or_none};
ghost use Rattle.command_line.specs.Said.{AnswersCommand, AreCells, AreReaders, AreRows, way_of};

use crate::command::{KeyWay, WordsError};
use crate::numbers::number_of;
use clap::ArgMatches;
use std::alloc::Global;

/// How many rows `gen` makes at most.
const MOST_ROWS: u32 = 500_000;

/// The command that was named, and what was found for it.
pub fn chosen<'m, 'a>(matches: &'m ArgMatches<'a>) -> Option<(&'a str, &'m ArgMatches<'a>)>
    ensures { option_map (λ p. (p.0.now, rows_of (found_of p.1.now))) result ≡ subcommand_rows_of matches.now }
{
    matches.subcommand()
}

/// The text that stands for the argument.
pub fn given<'a>(matches: &ArgMatches<'a>, name: &str) -> Option<&'a str>
    ensures { option_map (λ s. s.now) result ≡ first_of name.now (rows_of (found_of matches.now)) }
{
    matches.get_str(name)
}

/// The text that stands for a required argument.
pub fn needed_text(alloc: Global, matches: &ArgMatches, name: &str) -> Result<String, WordsError>
    ensures { AnswersCommand string_bytes result (needed_text (first_of name.now (rows_of (found_of matches.now)))) }
{
    match given(matches, name) {
        Some(text) => Ok(String::from_str(alloc, text)?),
        None => Err(WordsError::Usage),
    }
}

/// The text that stands for an argument, or the empty one.
pub fn text_or_none(alloc: Global, matches: &ArgMatches, name: &str) -> Result<String, WordsError>
    ensures { AnswersCommand string_bytes result (Ok (text_or_none (first_of name.now (rows_of (found_of matches.now))))) }
{
    match given(matches, name) {
        Some(text) => Ok(String::from_str(alloc, text)?),
        None => Ok(String::new(alloc)),
    }
}

/// The text that stands for an argument, where it is there.
pub fn some_text(
    alloc: Global,
    matches: &ArgMatches,
    name: &str,
) -> Result<Option<String>, WordsError>
    ensures { AnswersCommand (option_map string_bytes) result (Ok (first_of name.now (rows_of (found_of matches.now)))) }
{
    match given(matches, name) {
        Some(text) => Ok(Some(String::from_str(alloc, text)?)),
        None => Ok(None),
    }
}

/// The number of an option within its limits, or `default` where the option isn't there.
fn number_in(
    matches: &ArgMatches,
    name: &str,
    default: u32,
    least: u64,
    most: u32,
) -> Result<u32, WordsError>
    requires low { least ≤ default }
    requires high { default ≤ most }
    ensures limits { IfOk result (λ n. (least ≤ n) × (n ≤ most)) }
    ensures number { AnswersCommand (λ n. n) result (number_in default least most (first_of name.now (rows_of (found_of matches.now)))) }
{
    let Some(text) = given(matches, name) else {
        return Ok(default);
    };
    match number_of(text) {
        Some(number) if least <= number && number <= u64::from(most) => Ok(number as u32),
        _ => Err(WordsError::Usage),
    }
}

/// How many cells a shard has.
pub fn cells_in(matches: &ArgMatches) -> Result<u32, WordsError>
    ensures limits { IfOk result AreCells }
    ensures number { AnswersCommand (λ n. n) result (cells_in (first_of (codes "cells") (rows_of (found_of matches.now)))) }
{
    number_in(matches, "cells", 262_144, 1_024, 4_194_304)
}

/// How many readers there are.
pub fn readers_in(matches: &ArgMatches) -> Result<u32, WordsError>
    ensures limits { IfOk result AreReaders }
    ensures number { AnswersCommand (λ n. n) result (readers_in (first_of (codes "readers") (rows_of (found_of matches.now)))) }
{
    number_in(matches, "readers", 2, 1, 8)
}

/// The number of a required option within its limits.
pub fn needed_number(
    matches: &ArgMatches,
    name: &str,
    least: u64,
    most: u64,
) -> Result<u64, WordsError>
    ensures limits { IfOk result (λ n. (least ≤ n) × (n ≤ most)) }
    ensures number { AnswersCommand (λ n. n) result (needed_number least most (first_of name.now (rows_of (found_of matches.now)))) }
{
    let Some(text) = given(matches, name) else {
        return Err(WordsError::Usage);
    };
    match number_of(text) {
        Some(number) if least <= number && number <= most => Ok(number),
        _ => Err(WordsError::Usage),
    }
}

/// How many rows a script has, and how many of its lines read one.
pub fn rows_and_gets(matches: &ArgMatches) -> Result<(u32, u32), WordsError>
    ensures limits { IfOk result (λ n. AreRows n.0 n.1) }
    ensures numbers { let rows = rows_of (found_of matches.now) in
        AnswersCommand (λ n. n) result (rows_and_gets (first_of (codes "count") rows) (first_of (codes "gets") rows)) }
{
    let count = needed_number(matches, "count", 1, u64::from(MOST_ROWS))? as u32;
    let gets = number_in(matches, "gets", 0, 0, count)?;
    Ok((count, gets))
}

/// Whether the flag is there.
pub fn is_set(matches: &ArgMatches, name: &str) -> bool
    ensures { result ≡ is_set (first_of name.now (rows_of (found_of matches.now))) }
{
    match given(matches, name) {
        Some(text) => text == "true",
        None => false,
    }
}

/// What `key` is to do, where exactly one of its two options is there.
pub fn one_way(alloc: Global, matches: &ArgMatches) -> Result<KeyWay, WordsError>
    ensures { let rows = rows_of (found_of matches.now) in
        AnswersCommand way_of result (one_way (first_of (codes "encode") rows) (first_of (codes "decode") rows)) }
{
    match (given(matches, "encode"), given(matches, "decode")) {
        (Some(list), None) => Ok(KeyWay::Encode(String::from_str(alloc, list)?)),
        (None, Some(digits)) => Ok(KeyWay::Decode(String::from_str(alloc, digits)?)),
        _ => Err(WordsError::Usage),
    }
}
