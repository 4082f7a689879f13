//! What holds of the layout of every list of ascending keys.
ghost use Rattle.page_packer.specs.Vectors.{AreLayoutVectors};
ghost use Rattle.page_packer.specs.Length.{LengthBound};
ghost use Rattle.page_packer.specs.Tree.{TreeIsEntries};
ghost use Rattle.page_packer.specs.Early.{EarlyStands, EarlyGrows, WeightGrows, LaidInParts};
ghost use Rattle.page_packer.specs.Edge.{EdgeCloses};
ghost use Rattle.page_packer.specs.EdgeLaws.{FrontierGrows, FrontierCloses};
ghost use Rattle.page_packer.specs.Packing.{PackingEnds};
ghost use Rattle.page_packer.specs.Reading.{LayoutMeans};
ghost use Rattle.page_packer.specs.Pages.{SubtreesInPages, NodesInPages, SpansStand};

/// Layouts of the worked rows.
pub fn law_vectors()
    ensures { AreLayoutVectors }
{}

/// The tree of ascending keys has exactly these keys, each with its payload, in their order.
pub fn law_tree()
    ensures { TreeIsEntries }
{}

/// Each subtree of weight at most 4,096 lies in one page.
pub fn law_page_subtree()
    ensures { SubtreesInPages }
{}

/// No node crosses a page.
pub fn law_page_node()
    ensures { NodesInPages }
{}

/// The layout of keys of n bytes together takes at most 32 * (n + 1) bytes, the zeros between pages among them.
pub fn law_length()
    ensures { LengthBound }
{}

/// What is appended early is a prefix of the layout of every longer list.
pub fn law_early()
    ensures { EarlyStands }
{}

/// What is appended early for a longer list begins with what is for a shorter one.
pub fn law_early_grows()
    ensures { EarlyGrows }
{}

/// A subtree's weight never falls when greater keys are added.
pub fn law_weight_grows()
    ensures { WeightGrows }
{}

/// Branches are laid in two parts.
pub fn law_parts()
    ensures { LaidInParts }
{}

/// The layout of a tree is what was appended early, and then what closes the rest.
pub fn law_edge()
    ensures { EdgeCloses }
{}

/// What a packer appends for a key, by what it holds, is what is appended early.
pub fn law_frontier_grows()
    ensures { FrontierGrows }
{}

/// What closes a packing ends the layout of all its keys.
pub fn law_frontier_closes()
    ensures { FrontierCloses }
{}

/// What was appended early and what is appended in the end are together the layout.
pub fn law_packing_ends()
    ensures { PackingEnds }
{}

/// Wherever a layout stands in a file at its start, the trie at its root means exactly its entries.
pub fn law_layout_means()
    ensures { LayoutMeans }
{}

/// Wherever a layout stands in a file at its start, the file has each node and each light subtree at its span.
pub fn law_spans()
    ensures { SpansStand }
{}
