//! What holds of the spelling of nodes.
ghost use Rattle.bti_nodes.specs.Laws.{LeastIsChosen, SizeIsLength, WeightBounds, SizeBounds, SizeByChildren, WrittenIsRead};
ghost use Rattle.bti_nodes.specs.Payloads.{NumbersRead};
ghost use Rattle.bti_nodes.specs.Packing.{RowsRead};
ghost use Rattle.bti_nodes.specs.Vectors.{AreVectors};

/// The vectors of the format.
pub fn law_vectors()
    ensures { AreVectors }
{}

/// A node has as many bytes as its size says.
pub fn law_size()
    ensures { SizeIsLength }
{}

/// A node has a byte at least, and fits a page.
pub fn law_bounds()
    ensures { SizeBounds }
{}

/// A node with children is written in the type of least size, and of several in that of the least number.
pub fn law_choice()
    ensures { LeastIsChosen }
{}

/// A node whose distances are at most 4,095 is no longer than its weight.
pub fn law_weight()
    ensures { WeightBounds }
{}

/// A node of c children has at most 9 + 6 * c bytes.
pub fn law_children()
    ensures { SizeByChildren }
{}

/// A row of bits is read as it was written.
pub fn law_packing()
    ensures { RowsRead }
{}

/// What is written is parsed to the same node, in each of the fifteen types that are written.
pub fn law_round_trip()
    ensures { WrittenIsRead }
{}

/// The bytes of a payload number read as that number, and are the fewest that can.
pub fn law_payloads()
    ensures { NumbersRead }
{}
