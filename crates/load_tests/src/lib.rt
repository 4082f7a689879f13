//! Tests of whole batches: worked rows, a shard that is full, and a gate that one thread alone can't pass.
#![tactic(auto)]

#[cfg(test)]
mod batches;
#[cfg(test)]
mod gate;
#[cfg(test)]
mod rows;
