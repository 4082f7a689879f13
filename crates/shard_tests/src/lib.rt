//! Tests of a shard's writer and readers together: worked rows on one thread, and all of them beside each other.
#![tactic(auto)]

#[cfg(test)]
mod beside;
#[cfg(test)]
mod rows;
