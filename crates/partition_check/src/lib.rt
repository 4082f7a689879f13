//! The check of a table's files against each other: whether the indexes of a generation are those of its Data.db. The
//! command `check` calls it. It reads each file in order and keeps nothing per row or per partition.
#![tactic(auto)]

mod data;
mod laws;
mod neighbours;
mod partitions;

pub use data::{Found, check_data};
pub use laws::{law_data, law_partitions};
pub use partitions::check_partitions;

#[cfg(test)]
mod tests;
