//! The check of a table's files against each other: whether the indexes of a generation are those of its Data.db. The
//! command `check` calls it. It reads each file in order and keeps nothing per row or per partition.
#![tactic(auto)]

mod checking;
mod footer;
mod verdict;

pub use checking::check;
pub use footer::{Footer, check_footer};
pub use verdict::Verdict;

#[cfg(test)]
mod tests;
