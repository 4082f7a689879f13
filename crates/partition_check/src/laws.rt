//! What the steps of a check say of the files, over the definitions. `check` puts them together.
ghost use Rattle.partition_check.specs.Data.{FoundIsListed, HeldIsFound};
ghost use Rattle.partition_check.specs.Partitions.{CheckedIsIndex, IndexIsChecked};

/// What is found in Data.db is what it lists, and where it holds a table's entries only a fault stops the check.
pub fn law_data()
    ensures found { FoundIsListed }
    ensures held { HeldIsFound }
{}

/// An index of which nothing is refused is that of the partitions, and of one that is only a fault is told.
pub fn law_partitions()
    ensures checked { CheckedIsIndex }
    ensures index { IndexIsChecked }
{}
