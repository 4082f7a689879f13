//! What the words ask for.
use std::alloc::AllocError;
use thiserror::Error;

/// The values of `list`.
#[derive(Debug, Drop)]
pub struct ListArguments {
    /// The schema, as its text.
    pub schema: String,
    /// How many cells the shard has, from 1,024 to 4,194,304.
    pub cells: u32,
}

/// The values of `load`.
#[derive(Debug, Drop)]
pub struct LoadArguments {
    /// The schema, as its text.
    pub schema: String,
    /// The bounds between the shards, as their text; the empty one has none.
    pub bounds: String,
    /// How many cells each shard has, from 1,024 to 4,194,304.
    pub cells: u32,
    /// How many readers there are, from 1 to 8.
    pub readers: u32,
}

/// The values of `get`.
#[derive(Debug, Drop)]
pub struct GetArguments {
    /// The key, as its text.
    pub key: String,
}

/// The values of `scan`.
#[derive(Debug, Drop)]
pub struct ScanArguments {
    /// The bound from which the rows go, as its text.
    pub from: Option<String>,
    /// The bound up to which they go, as its text.
    pub to: Option<String>,
}

/// The values of `gen`.
#[derive(Debug, Drop)]
pub struct GenArguments {
    /// The number from which all values are made.
    pub seed: u64,
    /// How many rows there are, from 1 to 500,000.
    pub count: u32,
    /// How many lines read a row, at most as many as there are rows.
    pub gets: u32,
    /// Whether the script is printed, and not loaded.
    pub print: bool,
    /// How many cells each shard has, from 1,024 to 4,194,304.
    pub cells: u32,
    /// How many readers there are, from 1 to 8.
    pub readers: u32,
}

/// What `key` is to do.
#[derive(Debug, Drop)]
pub enum KeyWay {
    /// `--encode L`, with the list as its text.
    Encode(String),
    /// `--decode H`, with the string in hexadecimal as its text.
    Decode(String),
}

/// The values of `key`.
#[derive(Debug, Drop)]
pub struct KeyArguments {
    /// The schema, as its text.
    pub schema: String,
    /// Whether the components are those within the partition, and not the partition's.
    pub clustering: bool,
    /// What is to be done.
    pub way: KeyWay,
}

/// A command of the tool, with its values.
#[derive(Debug, Drop)]
pub enum Command {
    /// `list --schema S [--cells n]`
    List(ListArguments),
    /// `load --schema S [--bounds B] [--cells n] [--readers n]`
    Load(LoadArguments),
    /// `get K`
    Get(GetArguments),
    /// `scan [--from B] [--to B]`
    Scan(ScanArguments),
    /// `check`
    Check,
    /// `gen --seed s --count n [--gets g] --print` or `.. [--cells n] [--readers n]`
    Gen(GenArguments),
    /// `key --schema S [--clustering] --encode L` or `.. --decode H`
    Key(KeyArguments),
}

/// Why no command was read.
#[derive(Clone, Copy, Debug, PartialEq, Eq, Error)]
pub enum WordsError {
    /// The words are not those of a command.
    #[error("the words are not those of a command")]
    Usage,
    /// Memory ran out.
    #[error("out of memory")]
    NoMemory,
}

impl From<AllocError> for WordsError {
    ghost use Rattle.std.specs.Prelude.{◌≡◌};
    ghost use Rattle.command_line.specs.declared.command.WordsError.TheVariants.{NoMemory};

    ghost from_gives = { λ _ e. e ≡ NoMemory };

    fn from(_e: AllocError) -> WordsError {
        WordsError::NoMemory
    }
}
