//! Key components as bytes, whose unsigned order is the order of the values.
//!
//! The encoding is made after ByteComparable.md of Apache Cassandra.
#![tactic(auto)]

mod encoding;
mod laws;
mod strings;
#[cfg(test)]
mod tests;

pub use encoding::{SEPARATOR, TERMINATOR, encode_bytes, encode_into};
pub use laws::{law_order, law_prefix_free, law_range, law_weakly_prefix_free};
pub use strings::{
    KeyError, LONGEST_STRING, Side, bound_string, clustering_string, partition_string,
};
