//! Scripts: the bytes of a script read into batches of puts and gets, or the first line that isn't accepted.
#![tactic(auto)]

mod batch;
mod commands;
mod generator;
mod laws;
mod lines;
mod progress;
mod reader;
mod said;
mod script;
mod spans;
#[cfg(test)]
mod tests;

pub use batch::{Batch, BatchList};
pub use generator::{MOST_ROWS, rows_from};
pub use laws::{
    law_accepted_puts, law_batches_keep_order, law_entries_ascend, law_generated_gets,
    law_put_lines, law_script_meaning,
};
pub use reader::{MOST_BYTES, MOST_LINES, MOST_READERS, read_script};
pub use script::{LineCause, Script, ScriptError};
pub use spans::{GetLine, PutLine};
