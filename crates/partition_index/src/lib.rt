//! The partition index of a table: the shortest unique prefixes of the strings of its partitions, with numbers, as a
//! trie in pages with a footer (after the `Partitions.db` of Cassandra's BTI format). The flush writes it beside the data
//! file.
#![tactic(auto)]

mod ending;
mod laws;
mod newest;
mod packing;
mod writer;

pub use laws::{
    law_early_index_grows, law_early_index_stands, law_entries_are_index, law_file_means_index,
    law_index_ends, law_index_is_short, law_root_in_trie,
};
pub use writer::PartitionWriter;

#[cfg(test)]
mod tests;
