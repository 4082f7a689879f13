//! The text of a table's rows and static values, by the strings of their keys, and of numbers behind labels. The
//! commands that print entries call these: those that list a closed table, and those that scan the files of one.
#![tactic(auto)]

mod laws;
mod numbers;
mod rows;

pub use laws::law_keys_are_named;
pub use numbers::put_number;
pub use rows::{put_count, put_row, put_static, turn_text};
