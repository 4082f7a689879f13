//! How a file of a table differs from what Data.db gives. A walk over Data.db tells it of keys that don't ascend.

/// How a file differs from what Data.db gives.
#[derive(Clone, Copy, Debug, PartialEq, Eq)]
pub enum Clash {
    /// The key that stands there in Data.db isn't above the one before it, or the partition whose head stands there has
    /// neither a row nor a static value.
    Order,
    /// The path of the payload there isn't the one that Data.db gives for its place, or no path is to be there, or
    /// paths are missing in the trie whose root stands there.
    Path,
    /// A number there isn't the one that Data.db gives.
    Number { found: i128, wanted: i128 },
    /// The string of a partition there isn't the one that Data.db has.
    Key,
}
