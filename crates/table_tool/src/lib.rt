//! The commands of the table: the top calls, which carry what a user relies on.
#![tactic(auto)]

mod check;
mod fault_line;
mod first;
mod generate;
mod get;
mod input;
mod key;
mod laws;
mod list;
mod load;
mod printing;
mod request;
mod saying;
mod scan;
mod status;
mod tool;

pub use laws::law_headline;
pub use status::Status;
pub use tool::{run, run_load, run_query};

#[cfg(test)]
mod tests;
