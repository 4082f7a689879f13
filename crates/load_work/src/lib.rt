//! A batch of a script, put into the shards of a table and read from them on threads. Whoever loads a script calls it.
//!
//! Each shard with puts has its writer, and each reader with gets walks beside it; all are joined before any answer.
#![tactic(auto)]

ghost use Rattle.load_work.specs.Work.{LawNewHaveLearnt};

mod batch;
mod deal;
mod jobs;
mod left;
mod merge;
mod read;
mod settle;
mod work;
mod write;

pub use batch::Answer;
pub use work::{LoadError, run_batch};

/// The readers of a new table know all puts that were made there.
pub fn law_new_have_learnt()
    ensures { LawNewHaveLearnt }
{}
