//! What the bytes of a data file determine, for a reader.
ghost use Rattle.data_file.specs.Laws.{ListingIsUnique};

/// The bytes of a data file list at most one list of partitions.
pub fn law_listing()
    ensures { ListingIsUnique }
{}
