//! The strings of keys, spelled while the literals of their components are read.
//!
//! No values are made in between: each component's bytes are put behind those of the components before it.
#![tactic(auto)]

mod spelling;
#[cfg(test)]
mod tests;

pub use spelling::spell_list;
