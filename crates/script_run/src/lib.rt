//! The batches of a script, run on the shards of a table: puts are made by a writer each shard, gets are answered by
//! readers beside them, and a batch's answers are printed when it has ended. Who loads or lists a script calls it.
#![tactic(auto)]

mod answers;
mod fill;
mod lines;
mod open;
mod run;
mod step;
#[cfg(test)]
mod tests;

pub use fill::fill_shard;
pub use run::{RunError, run_script};
