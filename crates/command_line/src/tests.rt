//! Vectors of words.
use crate::{
    Command, GenArguments, KeyArguments, KeyWay, ListArguments, LoadArguments, ScanArguments,
    WordsError, read_words,
};
use std::alloc::{AllocError, Global};

fn words_of(alloc: Global, words: &[&str]) -> Result<Vec<String>, AllocError> {
    let mut texts = Vec::new(alloc);
    for word in words {
        texts.push(String::from_str(alloc, *word)?)?;
    }
    Ok(texts)
}

/// What `key` is to do, of which schema, and whether within the partition.
fn key_said(alloc: Global, arguments: KeyArguments) -> Result<String, AllocError> {
    let KeyArguments {
        schema,
        clustering,
        way,
    } = arguments;
    match way {
        KeyWay::Encode(list) => format!(in alloc; "encode {list} {schema} {clustering}"),
        KeyWay::Decode(digits) => format!(in alloc; "decode {digits} {schema} {clustering}"),
    }
}

/// The text of an option, or a dash.
fn text_or_dash(alloc: Global, text: Option<String>) -> Result<String, AllocError> {
    match text {
        Some(text) => Ok(text),
        None => String::from_str(alloc, "-"),
    }
}

/// The bounds of a range.
fn range_said(alloc: Global, arguments: ScanArguments) -> Result<String, AllocError> {
    let from = text_or_dash(alloc, arguments.from)?;
    let to = text_or_dash(alloc, arguments.to)?;
    format!(in alloc; "{from} {to}")
}

/// The numbers of a generated script, and whether it is printed.
fn gen_said(alloc: Global, arguments: GenArguments) -> Result<String, AllocError> {
    let GenArguments {
        seed,
        count,
        gets,
        print,
        cells,
        readers,
    } = arguments;
    format!(in alloc; "{seed} {count} {gets} {print} {cells} {readers}")
}

/// The texts and numbers of the command, or `usage`.
fn said_by(alloc: Global, words: &[&str]) -> Result<String, AllocError> {
    let texts = words_of(alloc, words)?;
    match read_words(alloc, texts.as_slice()) {
        Ok(Command::List(arguments)) => {
            let ListArguments { schema, cells } = arguments;
            format!(in alloc; "{schema} {cells}")
        }
        Ok(Command::Load(arguments)) => {
            let LoadArguments {
                schema,
                bounds,
                cells,
                readers,
            } = arguments;
            format!(in alloc; "{schema} {bounds} {cells} {readers}")
        }
        Ok(Command::Get(arguments)) => Ok(arguments.key),
        Ok(Command::Scan(arguments)) => range_said(alloc, arguments),
        Ok(Command::Check) => String::from_str(alloc, "check"),
        Ok(Command::Key(arguments)) => key_said(alloc, arguments),
        Ok(Command::Gen(arguments)) => gen_said(alloc, arguments),
        Err(WordsError::Usage) => String::from_str(alloc, "usage"),
        Err(WordsError::NoMemory) => Err(AllocError),
    }
}

#[test]
fn takes_the_commands(rt: HostRuntime) -> Result<(), AllocError> {
    let alloc = rt.alloc();
    let table: [(&[&str], &str); 26] = [
        (
            &["list", "--schema", "(int; ; text)"],
            "(int; ; text) 262144",
        ),
        (&["list", "--schema="], " 262144"),
        (&["list", "--schema", ""], " 262144"),
        (&["list", "--schema=--x=y"], "--x=y 262144"),
        (&["list", "--schema", "list"], "list 262144"),
        (&["list", "--schema", "-"], "- 262144"),
        (&["list", "--cells", "1024", "--schema", "s"], "s 1024"),
        (&["list", "--cells=004194304", "--schema=s"], "s 4194304"),
        (&["load", "--schema", "s"], "s  262144 2"),
        (&["load", "--schema=s", "--bounds="], "s  262144 2"),
        (
            &["load", "--readers=1", "--bounds", "(1) (2)", "--schema=s"],
            "s (1) (2) 262144 1",
        ),
        (
            &["load", "--schema", "s", "--readers", "8", "--cells", "1024"],
            "s  1024 8",
        ),
        (&["get", "(1) (2)"], "(1) (2)"),
        (&["get", ""], ""),
        (&["scan"], "- -"),
        (&["scan", "--to", "(2)", "--from=(1) (3)"], "(1) (3) (2)"),
        (&["scan", "--from=--x"], "--x -"),
        (&["check"], "check"),
        (
            &["gen", "--seed", "0", "--count=1", "--print"],
            "0 1 0 true 262144 2",
        ),
        (
            &["gen", "--print", "--gets", "1", "--count=01", "--seed=7"],
            "7 1 1 true 262144 2",
        ),
        (
            &[
                "gen",
                "--seed=18446744073709551615",
                "--count=500000",
                "--gets=500000",
                "--cells=1024",
                "--readers=8",
            ],
            "18446744073709551615 500000 500000 false 1024 8",
        ),
        (
            &["key", "--schema", "s", "--encode", "(1)"],
            "encode (1) s false",
        ),
        (
            &["key", "--schema", "s", "--clustering", "--encode", "(1)"],
            "encode (1) s true",
        ),
        (&["key", "--decode=40", "--schema=s"], "decode 40 s false"),
        (
            &["key", "--clustering", "--decode", "40", "--schema=s"],
            "decode 40 s true",
        ),
        (&["key", "--encode=-1", "--schema="], "encode -1  false"),
    ];
    for (words, schema) in table {
        let read = said_by(alloc, words)?;
        assert_eq!(rt; read.as_str(), schema);
    }
    Ok(())
}

#[test]
fn refuses_other_words(rt: HostRuntime) -> Result<(), AllocError> {
    let alloc = rt.alloc();
    let table: [&[&str]; 62] = [
        &[],
        &[""],
        &["list"],
        &["lists", "--schema", "s"],
        &["list", "--schema"],
        &["list", "--schema", "s", "--schema", "s"],
        &["list", "--schema=s", "--schema=s"],
        &["list", "--schema", "-5"],
        &["list", "--schema", "--x"],
        &["list", "--schema", "s", "more"],
        &["list", "--schema", "s", ""],
        &["list", "--sch", "s"],
        &["list", "--Schema", "s"],
        &["list", "-schema", "s"],
        &["list", "-s", "s"],
        &["list", "--=s"],
        &["list", "--schema", "s", "--cells", "1023"],
        &["list", "--schema", "s", "--cells", "4194305"],
        &["list", "--schema", "s", "--cells="],
        &["list", "--schema", "s", "--cells=+2048"],
        &["list", "--schema", "s", "--cells=2048 "],
        &["list", "--schema", "s", "--cells=18446744073709553664"],
        &["list", "--schema", "s", "--bounds", "(1)"],
        &["load"],
        &["load", "--schema", "s", "--readers", "9"],
        &["load", "--schema", "s", "--readers", "0"],
        &["load", "--schema=s", "--bounds=(1)", "--bounds=(1)"],
        &["scan", "--schema", "s"],
        &["scan", "list"],
        &["scan", "--from", "(1)", "--from", "(1)"],
        &["scan", "--to"],
        &["check", "(1)"],
        &["check", "--schema", "s"],
        &["get"],
        &["get", "(1)", "(2)"],
        &["get", "-1"],
        &["get", "--key", "(1)"],
        &["gen", "--seed", "1", "--print"],
        &["gen", "--count", "1"],
        &["gen", "--seed=0", "--count=0", "--print"],
        &["gen", "--seed=0", "--count=500001"],
        &["gen", "--seed=0", "--count=2", "--gets=3"],
        &["gen", "--seed=18446744073709551616", "--count=2"],
        &["gen", "--seed=-1", "--count=2"],
        &["gen", "--seed=1", "--count=2", "--print=true"],
        &["gen", "--seed=1", "--count=2", "--print", "--readers=9"],
        &["key"],
        &["key", "--schema", "s"],
        &["key", "--encode", "(1)"],
        &["key", "--schema", "s", "--clustering"],
        &["key", "--schema", "s", "--encode", "(1)", "--decode", "40"],
        &["key", "--schema", "s", "--encode", "(1)", "--encode", "(1)"],
        &["key", "--schema", "s", "--decode=40", "--decode=40"],
        &[
            "key",
            "--schema=s",
            "--encode=(1)",
            "--clustering",
            "--clustering",
        ],
        &[
            "key",
            "--schema",
            "s",
            "--encode",
            "(1)",
            "--clustering=true",
        ],
        &["--schema", "s", "list"],
        &["list", "--schema", "help"],
        &["list", "--schema", "s", "--help"],
        &["-h"],
        &["list", "--schema", "s", "--version"],
        &["-V"],
        &["list", "--schema", "s", "--"],
    ];
    for words in table {
        let read = said_by(alloc, words)?;
        assert_eq!(rt; read.as_str(), "usage");
    }
    Ok(())
}
