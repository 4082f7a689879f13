//! The data file of a table: its partitions with their rows, written and read.
#![tactic(auto)]

mod laws;
mod parse;
mod reading;
mod static_part;
mod strings;
mod writer;

pub use laws::law_listing;
pub use parse::{ParseRow, RowParts, head_in, parse_row, row_in};
pub use reading::{
    DataError, DataRow, Head, RowAt, StaticPart, read_partition_head, read_row, read_static_part,
};
pub use static_part::static_part_in;
pub use writer::{Counts, DataWriter};

#[cfg(test)]
mod tests;
