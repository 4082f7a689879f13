//! The row index of a table: for each partition of two or more blocks the separators of its blocks, with offsets, as a
//! trie in pages with an entry behind it (after the `Rows.db` of Cassandra's BTI format). The flush writes it beside the
//! data file.
#![tactic(auto)]

mod entry;
mod laws;
mod writer;

pub use laws::{
    law_each_stands_in_rows, law_early_rows_grow, law_early_rows_stand, law_entries_are_row_index,
    law_partition_ends, law_rows_are_short,
};
pub use writer::RowWriter;

#[cfg(test)]
mod tests;
