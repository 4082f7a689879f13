//! The bounds of a range, from their texts, each of which may be left out.
ghost use Rattle.std.specs.Option.{option_copied};
ghost use Rattle.key_types.specs.Columns.{columns_of};
ghost use Rattle.scan_tool.specs.Bounds.{ReadsEnd, ReadsRange};

use crate::bound::{BoundStop, read_bound};
use byte_comparable::Side;
use key_types::Schema;
use std::alloc::Global;
use table_reader::BoundString;

/// The bound of a text, where there is one.
fn read_end(
    alloc: Global,
    schema: &Schema,
    side: Side,
    text: Option<&[u8]>,
) -> Result<Option<BoundString>, BoundStop>
    ensures { ReadsEnd (columns_of schema.now) side (option_copied text.entry) result }
{
    match text {
        Some(text) => match read_bound(alloc, schema, side, text) {
            Ok(bound) => Ok(Some(bound)),
            Err(e) => Err(e),
        },
        None => Ok(None),
    }
}

/// The bound from which a range goes, and that up to which it goes.
pub fn read_range(
    alloc: Global,
    schema: &Schema,
    from: Option<&[u8]>,
    to: Option<&[u8]>,
) -> Result<(Option<BoundString>, Option<BoundString>), BoundStop>
    ensures { ReadsRange (columns_of schema.now) (option_copied from.entry) (option_copied to.entry) result }
{
    let lower = match read_end(alloc, schema, Side::Before, from) {
        Ok(lower) => lower,
        Err(e) => return Err(e),
    };
    match read_end(alloc, schema, Side::After, to) {
        Ok(upper) => Ok((lower, upper)),
        Err(e) => Err(e),
    }
}
