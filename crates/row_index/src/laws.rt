//! What holds of the row index of every list of partitions: no call has more than its clause.
ghost use Rattle.row_index.specs.Laws.{EachStandsInRows, EarlyRowsGrow, EarlyRowsStand, EntriesAreRowIndex, PartitionEnds, RowsAreShort};

/// The keys of the entries are the shortest separators.
pub fn law_entries_are_row_index()
    ensures { EntriesAreRowIndex }
{}

/// Each partition's entry stands behind its trie, which means exactly its separators with offsets, wherever the file
/// goes on.
pub fn law_each_stands_in_rows()
    ensures { EachStandsInRows }
{}

/// What stands early is a prefix of the file of every list of partitions that goes on from there.
pub fn law_early_rows_stand()
    ensures { EarlyRowsStand }
{}

/// Each block appends the rest of what stands early with it.
pub fn law_early_rows_grow()
    ensures { EarlyRowsGrow }
{}

/// The end of a partition appends the rest of its bytes.
pub fn law_partition_ends()
    ensures { PartitionEnds }
{}

/// The file has fewer than 2^41 bytes.
pub fn law_rows_are_short()
    ensures { RowsAreShort }
{}
