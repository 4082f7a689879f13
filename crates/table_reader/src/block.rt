//! The search for a row in the bytes of a block, which begin at a row. A lookup calls it with the bytes that it has
//! read; what it says holds whatever follows them, but where a row is cut off.
ghost use Rattle.std.specs.Prelude.{◌≡◌, ◌<◌, ◌+◌, ◌^◌, length, Ok, IfErr, IfOk};
ghost use Rattle.std.specs.Prelude.{option_copied};
ghost use Rattle.key_types.specs.Columns.{columns_of};
ghost use Rattle.table_reader.specs.Rows.{FindsWith, StopsAt};

use byte_order::compare_bytes;
use data_file::{ParseRow, row_in};
use key_types::Schema;
use std::cmp::Ordering;

/// Why a search in the bytes of a block came to no answer, and at which position.
#[derive(Clone, Copy, Debug, PartialEq, Eq)]
pub enum Stop {
    /// A row is cut off.
    Short(u64),
    /// Neither a row nor the end of a partition begins there.
    Bad(u64),
}

/// The value of the key's row in a block that ends with the first row that ends at `limit` or behind it; `None` where
/// the block has no row of the key. The bytes stand at the position `at`.
pub fn find_row<'b>(
    schema: &Schema,
    bytes: &'b [u8],
    at: u64,
    limit: u64,
    key: &[u8],
) -> Result<Option<&'b [u8]>, Stop>
    requires place { at + length bytes.now < 2 ^ 64 }
    ensures found { IfOk result
        (λ found. FindsWith (columns_of schema.now) key.now limit at bytes.now (Ok (option_copied found))) }
    ensures stops { IfErr result (StopsAt (columns_of schema.now) key.now limit at bytes.now) }
{
    let mut place = at;
    let mut rest = bytes;
    'rows: loop {
        let row = match row_in(schema, rest) {
            Ok(Some(row)) => row,
            Ok(None) => return Ok(None),
            Err(ParseRow::Short) => return Err(Stop::Short(place)),
            Err(ParseRow::Bad) => return Err(Stop::Bad(place)),
            // it takes no memory
            Err(ParseRow::NoMemory) => return Err(Stop::Bad(place)),
        };
        match compare_bytes(row.clustering, key) {
            Ordering::Less => {}
            Ordering::Equal => return Ok(Some(row.value)),
            Ordering::Greater => return Ok(None),
        }
        let size = 5 + row.clustering.len() + row.value.len();
        place += size as u64;
        if limit <= place {
            return Ok(None);
        }
        let (_, behind) = rest.split_at(size);
        rest = behind;
    }
}
