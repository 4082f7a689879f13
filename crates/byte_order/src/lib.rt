//! Byte strings: their order, which is unsigned by the first different byte, a proper prefix being less; shortest unique
//! prefixes, and separators. The index writers take their keys from here; no call takes memory or refuses anything.
#![tactic(auto)]

mod laws;
mod order;
mod shortest;
#[cfg(test)]
mod tests;

pub use laws::{law_separator_size, law_unique_among_all, law_unique_size};
pub use order::{compare_bytes, is_prefix};
pub use shortest::{separator_len, unique_len};
