//! Texts of typed values: literals are read by their types, and each value is written in one way.
#![tactic(auto)]

mod laws;
mod quotes;
mod reading;
#[cfg(test)]
mod tests;
mod tokens;
mod values;
mod writing;

pub use laws::law_literal_texts;
pub use reading::{LiteralError, read_list, read_value};
pub use tokens::list_ends;
pub use values::{plain_text, read_closed_blob, read_closed_text, read_marked};
pub use writing::{write_bytes, write_equals, write_list, write_value};
