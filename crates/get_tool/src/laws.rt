//! What is shown of files that stand for a map.
ghost use Rattle.get_tool.specs.Laws.{ShowsMap};

/// Over files that stand for a map the line is that of the value which the map has at the key, and there is no damage.
pub fn law_get_lines()
    ensures { ShowsMap }
{}
