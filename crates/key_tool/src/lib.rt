//! What the command `key` shows: the strings of components of keys in hexadecimal, and the components of such strings.
#![tactic(auto)]

mod laws;
mod request;
mod showing;
mod steps;
#[cfg(test)]
mod tests;

pub use laws::law_key_texts;
pub use request::{KeyFault, KeyPart, KeyWay};
pub use showing::show_key;
