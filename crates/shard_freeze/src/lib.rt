//! The words of a shard that is closed, listed as the sorted map of its puts. A flush walks it, and so does whoever
//! prints a shard.
#![tactic(auto)]

ghost use Rattle.shard_freeze.specs.Listing.{LawLists};

mod cursor;
mod edges;
mod record;
mod seek;
mod walk;

pub use cursor::{Cursor, Entry, Frozen};

/// The entries that the root of a well-formed image sees, children by ascending bytes, are those of the sorted map of
/// its puts.
pub fn law_lists()
    ensures { LawLists }
{}

#[cfg(test)]
mod tests;
