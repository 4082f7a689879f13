//! A walk over Data.db, partition by partition and block by block, which looks at the order of keys. It reads the file
//! in order and keeps nothing per row or per partition. Each step of the check of a table goes through Data.db by it.
#![tactic(auto)]

mod clash;
mod data_walk;
mod laws;
mod order;
mod refusal;
mod size;

pub use clash::Clash;
pub use data_walk::{DataWalk, PartitionSum};
pub use laws::{law_all, law_blocks, law_next, law_passed};
pub use refusal::{Mismatch, Refusal, clash_at};
pub use size::data_size;

#[cfg(test)]
mod tests;
