//! What holds of the texts of schemas.
ghost use Rattle.schema_text.specs.Laws.{SchemaTexts};

/// What is written of a schema is a text of it, a text is of at most one schema, so what is written is read back as the same schema; and what is written is at
/// most twice as long as any text of the schema, so at most 4,000 bytes where the schema was read.
pub fn law_schema_texts()
    ensures { SchemaTexts }
{}
