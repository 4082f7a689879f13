//! Key strings, printed: each component is written as it is decoded.
#![tactic(auto)]

mod printing;
#[cfg(test)]
mod tests;

pub use printing::write_string;
