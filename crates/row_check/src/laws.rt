//! What it means that the checks find nothing, and what they find where nothing is wrong.
ghost use Rattle.row_check.specs.Laws.{BlocksAreJudged, EntriesAreJudged};

/// Where a partition stands at a position of Data.db, the check of its blocks finds nothing only where the row index is
/// that of its blocks, and finds nothing but a fault where it is.
pub fn law_blocks()
    ensures { BlocksAreJudged }
{}

/// Where Data.db lists partitions that ascend, the check of entries finds nothing only where the paths of Partitions.db
/// lead to the entries and row indexes of the partitions, and finds nothing but a fault where they do.
pub fn law_entries()
    ensures { EntriesAreJudged }
{}
