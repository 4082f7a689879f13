//! Values of key components from their encodings, and where the strings of keys end.
//!
//! The shapes are made after ByteComparable.md of Apache Cassandra.
#![tactic(auto)]

mod decoding;
mod numbers;
mod strings;
#[cfg(test)]
mod tests;
mod texts;
mod values;

pub use decoding::{DecodeError, decode, decode_clustering, decode_partition};
pub use numbers::read_sign;
pub use strings::{is_clustering_string, is_partition_string, split_row};
pub use texts::{plain_text, read_text};
pub use values::read_value;
