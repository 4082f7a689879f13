//! What it is to read a text exactly, for every grammar: readings stop where no text of the grammar goes on.
#![tactic(auto)]

mod stop;
mod words;

pub use stop::{Stop, further};
pub use words::{read_sign, read_word, skip_spaces};
