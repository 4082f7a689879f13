//! What a check answers about files that it could read. `check` makes it of how its steps ended.
use data_file::Counts;
use data_walk::Mismatch;

/// What a check answers.
#[derive(Clone, Copy, Debug, PartialEq, Eq)]
pub enum Verdict {
    /// The files stand for the map that Data.db lists, which has so many partitions and rows.
    Sound(Counts),
    /// They don't: the first clash, and where it stands.
    Unsound(Mismatch),
}
