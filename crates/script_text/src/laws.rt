//! Laws over the definitions of scripts.
ghost use Rattle.script_text.specs.Generator.{GeneratesGets};
ghost use Rattle.script_text.specs.Laws.{BatchesKeepOrder, EntriesAscend, ReadsLines, SpelledAreAccepted};
ghost use Rattle.script_text.specs.Meaning.{ScriptMeaning};

/// A line is read as what it says exactly where the grammar has it and its numbers are of their types, and else
/// the first cause is told with its exact place.
pub fn law_put_lines()
    ensures { ReadsLines }
{}

/// The puts and gets of a script are of its schema, and there are at most `MOST_LINES` of each; their lines ascend, and
/// the gets go to the readers in turn.
pub fn law_accepted_puts()
    ensures { SpelledAreAccepted }
{}

/// The puts and gets of all batches in their order are those of the lines.
pub fn law_batches_keep_order()
    ensures { BatchesKeepOrder }
{}

/// The entries of the sorted map of an accepted script ascend by the order of their typed keys, a static key first in
/// its partition.
pub fn law_entries_ascend()
    ensures { EntriesAscend }
{}

/// What bytes say as a script by the grammar of lines is what `script_of` computes of them; where they say a script, or
/// that they are too many, it computes no other.
pub fn law_script_meaning()
    ensures { ScriptMeaning }
{}

/// A generated script has as many gets as are asked for.
pub fn law_generated_gets()
    ensures { GeneratesGets }
{}
