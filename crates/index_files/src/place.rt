//! Where the payloads of the partition index lead. A lookup of a partition calls it with the number that it found.
ghost use Rattle.std.specs.Prelude.{◌≡◌};
ghost use Rattle.index_files.specs.Reading.{partition_place};

/// Where the number of a partition leads: to the entry of a partition of two or more blocks, at a position of the row
/// index, or to the head of another, at a position of the data file.
#[derive(Clone, Copy, Debug, PartialEq, Eq)]
pub enum PartitionPlace {
    Entry(u64),
    Head(u64),
}

/// Where the number of a partition leads.
pub fn partition_place(number: i64) -> PartitionPlace
    ensures { result ≡ partition_place number }
{
    if number < 0 {
        PartitionPlace::Head((-1 - number) as u64)
    } else {
        PartitionPlace::Entry(number as u64)
    }
}
