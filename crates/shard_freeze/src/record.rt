//! The value of a record, copied word by word.

ghost use Rattle.trie_image.specs.WellFormed.{HasLedger};
ghost use Rattle.shard_freeze.specs.Cursor.{BeginsRecord, IsRecordValue};
ghost use Rattle.std.specs.Prelude.{OnOk};

use cell_layout::head_parts;
use key_types::{ByteList, NoMemory};
use trie_rule::Words;

/// Puts the value of a record in place of what stands in `out`. Without memory for it a part may stand there.
pub fn copy_value(words: &Words, cell: u32, out: &mut ByteList) -> Result<(), NoMemory>
    requires image { HasLedger words.now.words }
    requires record { BeginsRecord words.now.words cell }
    ensures { OnOk result (IsRecordValue words.now.words cell out.new) }
{
    let (_, length) = head_parts(words.word(4 * cell));
    out.truncate(0);
    let mut at = 0;
    'words: while at < length {
        let bytes = words.word(4 * cell + 1 + at / 8).to_le_bytes();
        let count = (length - at).min(8);
        out.extend(&bytes[..count as usize])?;
        at += 8;
    }
    Ok(())
}
