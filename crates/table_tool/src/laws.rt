//! Laws over runs, one behind the other.
ghost use Rattle.table_tool.specs.Laws.{HeadlineOfChecks, HeadlineOfFiles, HeadlineOfGets, HeadlineOfReads};

/// Where `load` ended Ok, each get of its script was answered by its key's value after a printed number of its shard's puts, never
/// fewer than its reader had seen there or than earlier batches made; and over the files that it left a `scan` prints the rows and
/// static values of the sorted map of all puts between its bounds, and a `get` the value that this map has at a key. Where `check` ended Ok,
/// each `get` and each `scan` over the files prints what the map that Data.db lists holds.
pub fn law_headline()
    ensures reads { HeadlineOfReads }
    ensures files { HeadlineOfFiles }
    ensures gets { HeadlineOfGets }
    ensures checks { HeadlineOfChecks }
{}
