//! What the words mean, for a reader.
ghost use Rattle.command_line.specs.Laws.{KeyDecodes, KeyEncodes, KeyTakesOne, ListIsRead, ListIsReadAttached};

/// What the words of `list` mean, for a schema of any text.
pub fn law_list()
    ensures apart { ListIsRead }
    ensures attached { ListIsReadAttached }
{}

/// What the words of `key` mean, for texts of any bytes: what it shows, and that both of its two options are Usage.
pub fn law_key()
    ensures encodes { KeyEncodes }
    ensures decodes { KeyDecodes }
    ensures takes_one { KeyTakesOne }
{}
