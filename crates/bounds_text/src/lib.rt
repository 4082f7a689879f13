//! The text of bounds between shards: lists of the components of a partition, one behind the other. A load reads it.
#![tactic(auto)]

mod reading;
#[cfg(test)]
mod tests;

ghost use Rattle.bounds_text.specs.Bounds.{OneBoundsText};

pub use reading::{BoundsError, read_bounds};

/// A text is of at most one list of bounds.
pub fn law_bounds_text()
    ensures { OneBoundsText }
{}
