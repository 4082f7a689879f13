//! The next path of a trie, which is to be there, the end of a trie, and why an index file is refused. The checks of index
//! files beside Data.db call this crate, path by path; nothing is kept but where the walk through the trie stands.
#![tactic(auto)]

mod paths;
mod refusals;

pub use paths::{check_end, next_path};
pub use refusals::{damage_at, number_clash};

#[cfg(test)]
mod tests;
