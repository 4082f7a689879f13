//! What holds of the index of every list of partitions: no call has more than its clause.
ghost use Rattle.partition_index.specs.Laws.{EarlyIndexGrows, EarlyIndexStands, EntriesAreIndex, FileMeansIndex, IndexEnds, IndexIsShort, RootInTrie};

/// The entries that neighbours determine have the shortest prefixes that are unique among all strings.
pub fn law_entries_are_index()
    ensures { EntriesAreIndex }
{}

/// The trie at the root that the footer names means exactly the entries of the index.
pub fn law_file_means_index()
    ensures { FileMeansIndex }
{}

/// What stands once some partitions were added is a prefix of the file of every longer list.
pub fn law_early_index_stands()
    ensures { EarlyIndexStands }
{}

/// Each partition appends the rest of what stands early with it.
pub fn law_early_index_grows()
    ensures { EarlyIndexGrows }
{}

/// The end appends the rest of the file.
pub fn law_index_ends()
    ensures { IndexEnds }
{}

/// The file has fewer than 2^36 bytes, and goes on behind the trie.
pub fn law_index_is_short()
    ensures { IndexIsShort }
{}

/// Of some partitions the root stands in the trie, and not at the file's start.
pub fn law_root_in_trie()
    ensures { RootInTrie }
{}
