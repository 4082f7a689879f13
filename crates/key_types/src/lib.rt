//! Column types, values and schemas of one table, and the small list types that all crates share.
#![tactic(auto)]

mod bytes;
mod kinds;
mod laws;
mod list;
mod schema;
#[cfg(test)]
mod tests;

pub use bytes::{ByteList, KeyBytes, NoMemory, ValueBytes};
pub use kinds::{ColType, TypeList, Value, ValueList, all_fit, compare, fits, is_text};
pub use laws::{law_last_put, law_puts_over};
pub use list::ListOf;
pub use schema::{LONGEST_VALUE, Schema, ValueType};
