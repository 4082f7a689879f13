//! The command `scan`: the lines of the rows and static values in a range of a table's files, in order, and how many
//! rows there are. The texts of the range's bounds are read here, after the schema's file and before the others.
#![tactic(auto)]

mod bound;
mod components;
mod error;
mod laws;
mod lines;
mod range;
mod scanning;

pub use bound::{BoundStop, read_bound};
pub use error::ScanError;
pub use laws::{law_bounds, law_scan_lines};
pub use scanning::print_range;

#[cfg(test)]
mod tests;
