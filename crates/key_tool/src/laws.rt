//! What holds of the lines that are shown.
ghost use Rattle.key_tool.specs.Laws.{KeyTexts};

/// At most one line is shown of a text. What is shown of the literal of components that fit is read back as the same literal, and what is shown of a string of
/// at most 1,024 bytes as the same string, in lower case.
pub fn law_key_texts()
    ensures { KeyTexts }
{}
