//! The command line as it is declared to `clap`.
ghost use Rattle.std.specs.Prelude.{◌≡◌, IfOk, [], ◌∷◌, false};
ghost use Rattle.clap.specs.Walk.{texts};
ghost use Rattle.clap.specs.Words.{app_of, shape_of, rule_of, with_subcommand};
ghost use Rattle.clap.specs.declared.Command.TheViews.{out-Command as fields_of};
ghost use Rattle.command_line.specs.Forms as form;
ghost use Rattle.command_line.specs.Grammar as grammar;

use clap::{Arg, ArgAction, Command};
use std::alloc::{AllocError, Global};

fn option<'a>(alloc: Global, name: &'a str) -> Arg<'a>
    ensures rule { rule_of result ≡ form.option name.entry.now }
    ensures local { result.global ≡ false }
{
    Arg::new(alloc, name).long(name).action(ArgAction::Set)
}

fn required_option<'a>(alloc: Global, name: &'a str) -> Arg<'a>
    ensures rule { rule_of result ≡ form.required_option name.entry.now }
    ensures local { result.global ≡ false }
{
    Arg::new(alloc, name)
        .long(name)
        .action(ArgAction::Set)
        .required(true)
}

/// An argument in a word of its own, which has to be there.
fn word<'a>(alloc: Global, name: &'a str) -> Arg<'a>
    ensures rule { rule_of result ≡ form.word name.entry.now }
    ensures local { result.global ≡ false }
{
    Arg::new(alloc, name).action(ArgAction::Set).required(true)
}

fn flag<'a>(alloc: Global, name: &'a str) -> Arg<'a>
    ensures rule { rule_of result ≡ form.flag name.entry.now }
    ensures local { result.global ≡ false }
{
    Arg::new(alloc, name).long(name).action(ArgAction::SetTrue)
}

/// The command with one more argument, the last.
fn with<'a>(command: Command<'a>, arg: Arg<'a>) -> Result<Command<'a>, AllocError>
    requires { arg.global ≡ false }
    ensures shape { IfOk result (λ c. shape_of c ≡ form.with (shape_of command.entry) (rule_of arg.entry)) }
    ensures local { IfOk result (λ c. (fields_of c).has_globals ≡ (fields_of command.entry).has_globals) }
{
    command.arg(arg)
}

/// The command with required options of these names, after its other arguments.
fn with_required<'a>(
    alloc: Global,
    command: Command<'a>,
    names: &[&'a str],
) -> Result<Command<'a>, AllocError>
    ensures shape { IfOk result (λ c. shape_of c ≡ form.with_required (shape_of command.entry) (texts names.now)) }
    ensures local { IfOk result (λ c. (fields_of c).has_globals ≡ (fields_of command.entry).has_globals) }
{
    let mut command = command;
    let mut rest = names;
    'names: while let [name, after @ ..] = rest {
        command = with(command, required_option(alloc, *name))?;
        rest = after;
    }
    Ok(command)
}

/// The command with options of these names, after its other arguments.
fn with_options<'a>(
    alloc: Global,
    command: Command<'a>,
    names: &[&'a str],
) -> Result<Command<'a>, AllocError>
    ensures shape { IfOk result (λ c. shape_of c ≡ form.with_options (shape_of command.entry) (texts names.now)) }
    ensures local { IfOk result (λ c. (fields_of c).has_globals ≡ (fields_of command.entry).has_globals) }
{
    let mut command = command;
    let mut rest = names;
    'names: while let [name, after @ ..] = rest {
        command = with(command, option(alloc, *name))?;
        rest = after;
    }
    Ok(command)
}

/// The command line with one more command, the last.
fn with_command<'a>(tool: Command<'a>, command: Command<'a>) -> Result<Command<'a>, AllocError>
    requires { (fields_of command).has_globals ≡ false }
    ensures { IfOk result (λ c. app_of c ≡ with_subcommand (app_of tool.entry) (shape_of command.entry)) }
{
    tool.subcommand(command)
}

fn list<'a>(alloc: Global) -> Result<Command<'a>, AllocError>
    ensures shape { IfOk result (λ c. shape_of c ≡ grammar.list) }
    ensures local { IfOk result (λ c. (fields_of c).has_globals ≡ false) }
{
    let command = with_required(alloc, Command::new(alloc, "list"), &["schema"])?;
    with_options(alloc, command, &["cells"])
}

fn load<'a>(alloc: Global) -> Result<Command<'a>, AllocError>
    ensures shape { IfOk result (λ c. shape_of c ≡ grammar.load) }
    ensures local { IfOk result (λ c. (fields_of c).has_globals ≡ false) }
{
    let command = with_required(alloc, Command::new(alloc, "load"), &["schema"])?;
    with_options(alloc, command, &["bounds", "cells", "readers"])
}

fn get<'a>(alloc: Global) -> Result<Command<'a>, AllocError>
    ensures shape { IfOk result (λ c. shape_of c ≡ grammar.get) }
    ensures local { IfOk result (λ c. (fields_of c).has_globals ≡ false) }
{
    with(Command::new(alloc, "get"), word(alloc, "key"))
}

fn scan<'a>(alloc: Global) -> Result<Command<'a>, AllocError>
    ensures shape { IfOk result (λ c. shape_of c ≡ grammar.scan) }
    ensures local { IfOk result (λ c. (fields_of c).has_globals ≡ false) }
{
    with_options(alloc, Command::new(alloc, "scan"), &["from", "to"])
}

fn generate<'a>(alloc: Global) -> Result<Command<'a>, AllocError>
    ensures shape { IfOk result (λ c. shape_of c ≡ grammar.gen) }
    ensures local { IfOk result (λ c. (fields_of c).has_globals ≡ false) }
{
    let command = with_required(alloc, Command::new(alloc, "gen"), &["seed", "count"])?;
    let command = with_options(alloc, command, &["gets", "cells", "readers"])?;
    with(command, flag(alloc, "print"))
}

fn key<'a>(alloc: Global) -> Result<Command<'a>, AllocError>
    ensures shape { IfOk result (λ c. shape_of c ≡ grammar.key) }
    ensures local { IfOk result (λ c. (fields_of c).has_globals ≡ false) }
{
    let command = with_required(alloc, Command::new(alloc, "key"), &["schema"])?;
    let command = with_options(alloc, command, &["encode", "decode"])?;
    with(command, flag(alloc, "clustering"))
}

/// The command line before its commands.
fn bare<'a>(alloc: Global) -> Command<'a>
    ensures { app_of result ≡ grammar.bare }
{
    Command::new(alloc, "sigvhal")
        .no_binary_name(true)
        .disable_help_flag(true)
        .disable_help_subcommand(true)
        .subcommand_required(true)
}

/// The command line with the commands that read scripts, after its others.
fn with_scripts<'a>(alloc: Global, tool: Command<'a>) -> Result<Command<'a>, AllocError>
    ensures { IfOk result (λ c. app_of c ≡ form.with_commands (app_of tool.entry) (grammar.list ∷ grammar.load ∷ [])) }
{
    let tool = with_command(tool, list(alloc)?)?;
    with_command(tool, load(alloc)?)
}

/// The command line with the commands that read tables, after its others.
fn with_tables<'a>(alloc: Global, tool: Command<'a>) -> Result<Command<'a>, AllocError>
    ensures { IfOk result (λ c. app_of c ≡ form.with_commands (app_of tool.entry) (grammar.get ∷ grammar.scan ∷ grammar.check ∷ [])) }
{
    let tool = with_command(tool, get(alloc)?)?;
    let tool = with_command(tool, scan(alloc)?)?;
    with_command(tool, Command::new(alloc, "check"))
}

/// The command line, with its commands.
pub fn tool<'a>(alloc: Global) -> Result<Command<'a>, AllocError>
    ensures { IfOk result (λ c. app_of c ≡ grammar.tool) }
{
    let tool = with_scripts(alloc, bare(alloc))?;
    let tool = with_tables(alloc, tool)?;
    let tool = with_command(tool, key(alloc)?)?;
    with_command(tool, generate(alloc)?)
}
