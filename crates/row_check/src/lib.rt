//! The entries and row indexes of Rows.db, beside the partitions of Data.db. The checker of a table's files calls this
//! crate behind its look at the paths of Partitions.db. All files are read in order, and nothing is kept per row or
//! per partition.
#![tactic(auto)]

mod blocks;
mod entries;
mod entry;
mod laws;
mod paths;

pub use blocks::check_blocks;
pub use entries::check_entries;
pub use laws::{law_blocks, law_entries};

#[cfg(test)]
mod tests;
