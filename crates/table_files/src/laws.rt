//! What the files determine.
ghost use Rattle.table_files.specs.Laws.{FilesDetermine, IndexesStand, StandingFilesWalk};

/// The files of a generation stand for one map at most, whatever the columns.
pub fn law_files_determine()
    ensures { FilesDetermine }
{}

/// The walk over a Data.db that holds entries gives these entries and comes to its end.
pub fn law_stands_walk()
    ensures { StandingFilesWalk }
{}

/// The index files of a table's partitions mean these partitions to a reader.
pub fn law_indexes_stand()
    ensures { IndexesStand }
{}
