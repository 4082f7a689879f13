//! The cells of a shard as words that threads share: one write seat, any number of read seats, and each step of a seat
//! one event of the trie machine.
//!
//! A seat shows what its holder knows: the writer the words and its puts, a reader the puts that it has seen and where
//! it stands. The words and all seats together are at all times a state of the machine (`Running`), whatever the order
//! in which threads make their steps. Writers, readers and the end of a shard stand above; none of the calls here waits.
#![tactic(auto)]

mod cells;
mod note;
mod plays;
mod seats;
mod views;
mod words;

pub use cells::ShardCells;
pub use note::Note;
pub use plays::{Asks, TrieRule};
pub use seats::{ReadSeat, WriteSeat};
pub use views::{ReadView, View, WriteView};
pub use words::Words;

#[cfg(test)]
mod tests;
