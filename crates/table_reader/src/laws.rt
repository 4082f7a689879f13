//! What a get finds in whole files, and what a scan gives of its range. The commands over a table's files stand on it.
ghost use Rattle.table_reader.specs.Laws.{FootersStand, GetsAreBounded, GetsAreOfMap, OrderIsOfStrings};
ghost use Rattle.table_reader.specs.Left.{RangeScanHasRange, ScansBeginWithRange, ScansGiveRange, WholeScanHasAll};
ghost use Rattle.table_reader.specs.NextReads.{ScansAreBounded, ScansBeginNear};

/// Over files that stand for a map, indexes and all, a get finds what the map has at the key.
pub fn law_gets()
    ensures { GetsAreOfMap }
{}

/// Over such files the footer of the partition index is there.
pub fn law_footers()
    ensures { FootersStand }
{}

/// An entry lies below or above a bound, by their parts, exactly where the string of its key lies below or above that of
/// the bound.
pub fn law_order()
    ensures { OrderIsOfStrings }
{}

/// Where the walk over Data.db from a scan's place comes to the file's end and its entries ascend, each call gives the
/// first of those that are left in the scan's range, and none only where none is left.
pub fn law_scans()
    ensures { ScansGiveRange }
{}

/// Over files that stand for a map, a scan without a lower bound begins with all entries of the map left that aren't
/// above its upper bound.
pub fn law_whole_scan()
    ensures { WholeScanHasAll }
{}

/// Over files that stand for a map, the search for the beginning of a range comes to a place at which a scan begins
/// with exactly the range's entries left.
pub fn law_ranges()
    ensures { RangeScanHasRange }
{}

/// The same of what `scan_between` answers: over such files it tells no damage.
pub fn law_begun_ranges()
    ensures { ScansBeginWithRange }
{}

/// Over such files a get meets no damage, so its bound on reads holds whatever it answers.
pub fn law_get_reads()
    ensures { GetsAreBounded }
{}

/// Over such files the search for a scan's beginning meets no damage, so its bound on reads holds whatever it answers.
pub fn law_scan_reads()
    ensures { ScansAreBounded }
{}

/// Over such files a scan begins near its next entry, so each entry that it gives takes at most 64 reads, and so does
/// its end.
pub fn law_next_reads()
    ensures { ScansBeginNear }
{}
