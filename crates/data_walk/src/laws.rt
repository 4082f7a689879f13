//! What the walk has passed, and what it finds of what lies ahead. The steps of a check call these.
ghost use Rattle.data_walk.specs.Ahead.{AheadIsFound, AllAreFound, BlocksAreMet, EndIsFound, HeadsOpen, ListedAreAhead};
ghost use Rattle.data_walk.specs.Passed.{FoundIsPassed};

/// A partition that the walk finds stands there whole, with a static value or a row, and its rows ascend.
pub fn law_passed()
    ensures { FoundIsPassed }
{}

/// Behind the head of a partition that stands ahead the walk meets its blocks one after the other, and then its end.
pub fn law_blocks()
    ensures head { HeadsOpen }
    ensures blocks { BlocksAreMet }
{}

/// The walk finds the partition that stands ahead, and where nothing does the end of the file.
pub fn law_next()
    ensures found { AheadIsFound }
    ensures ends { EndIsFound }
{}

/// A walk from the start of a file finds the partitions that it lists, one after the other, and then its end.
pub fn law_all()
    ensures start { ListedAreAhead }
    ensures steps { AllAreFound }
{}
