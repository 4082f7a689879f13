//! The words of the command line, read into a command.
#![tactic(auto)]

mod command;
mod declared;
mod getters;
mod laws;
mod numbers;
mod reading;

pub use command::{
    Command, GenArguments, GetArguments, KeyArguments, KeyWay, ListArguments, LoadArguments,
    ScanArguments, WordsError,
};
pub use laws::{law_key, law_list};
pub use reading::read_words;

#[cfg(test)]
mod tests;
