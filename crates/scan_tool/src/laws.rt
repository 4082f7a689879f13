//! Which keys are between the bounds of two texts, and what is printed of files that stand for a map.
ghost use Rattle.scan_tool.specs.Laws.{LowerBounds, PrintsMap, UpperBounds};

/// A key isn't below a lower bound, or above an upper one, as far as the bound names components, exactly where the
/// key's string isn't below, or above, that of the bound.
pub fn law_bounds()
    ensures lower { LowerBounds }
    ensures upper { UpperBounds }
{}

/// Over files that stand for a map, a scan that ends Ok has printed the entries of the map that are in the range, in
/// order, and how many rows there are. There is no damage, and after another fault what was printed is a prefix of
/// that text.
pub fn law_scan_lines()
    ensures { PrintsMap }
{}
