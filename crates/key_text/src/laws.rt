//! What holds of literals and of the lines that are written.
ghost use Rattle.key_text.specs.Laws.{LiteralTexts};

/// What is written of a value that fits is a text of it, a text is of at most one value of a type, which doesn't fit where a number in the text passes its
/// type, so what is written is read back as the same value; and so for lists of components.
pub fn law_literal_texts()
    ensures { LiteralTexts }
{}
