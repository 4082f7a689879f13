//! A walk over all shards of a table that is closed, in the order of their bounds: the flush and `list` read the table
//! by it. It gives the entries of the shards one by one; after want of memory it has those left that it had.

ghost use Rattle.std.specs.Prelude.{◌≡◌, ◌<◌, length, IfOk, OnErr};
ghost use Rattle.shard_freeze.specs.Cursor.{GivesInto};
ghost use Rattle.shard_table.specs.Together.{IsCursorOf, left_in, shard_entries};

use crate::frozen::FrozenTable;
use key_types::{ByteList, NoMemory};
use shard_freeze::Cursor;
use std::alloc::Global;
use std::marker::Model;

/// A place among the entries of all shards. Contracts see the shard in which it stands, and the cursor over it.
#[derive(Drop)]
pub struct TableCursor {
    alloc: Global,
    shard: usize,
    cursor: Cursor,
}

impl Model for TableCursor {
    ghost use Rattle.shard_table.specs.Together.{TableCursorAt};

    ghost Value = { TableCursorAt };

    ghost view = { λ c. record { shard = c.shard; cursor = c.cursor } };
}

impl FrozenTable {
    /// A cursor that gives all entries.
    pub fn cursor(&self, alloc: Global) -> Result<TableCursor, NoMemory>
        requires { 0 < length self.now }
        ensures own { IfOk result (λ cursor. IsCursorOf self.now cursor) }
        ensures left { IfOk result (λ cursor. left_in self.now cursor ≡ shard_entries self.now) }
    {
        let cursor = self.shard(0).cursor(alloc, b"")?;
        Ok(TableCursor {
            alloc,
            shard: 0,
            cursor,
        })
    }

    /// Puts the next entry into two buffers, in place of what stands there, and answers whether there was one.
    ///
    /// The buffers keep what they have allocated, so a walk over a table allocates little. Where there was no memory,
    /// they may hold a part of the entry.
    pub fn next_into(
        &self,
        cursor: &mut TableCursor,
        key: &mut ByteList,
        value: &mut ByteList,
    ) -> Result<bool, NoMemory>
        requires { IsCursorOf self.now cursor.old }
        ensures own { IsCursorOf self.now cursor.new }
        ensures gives { let left = left_in self.now in
            IfOk result (λ some. GivesInto (left cursor.old) some key.new value.new (left cursor.new)) }
        ensures err { OnErr result (left_in self.now cursor.new ≡ left_in self.now cursor.old) }
    {
        let count = self.shards();
        'steps: loop {
            if self
                .shard(cursor.shard)
                .next_into(&mut cursor.cursor, key, value)?
            {
                return Ok(true);
            }
            let next = cursor.shard + 1;
            if next >= count {
                return Ok(false);
            }
            cursor.cursor = self.shard(next).cursor(cursor.alloc, b"")?;
            cursor.shard = next;
        }
    }
}
