//! The flush of a table: entries in order become the four files of a generation.
//!
//! It is push-based, so that any source of sorted entries can feed it. The three large files are appended to while entries
//! come, and Schema.txt last, when the others are whole.
#![tactic(auto)]

mod current;
mod growing;
mod parts;
mod shards;
mod writer;

pub use parts::{part, row_at};
pub use shards::flush;
pub use writer::TableWriter;

#[cfg(test)]
mod tests;
