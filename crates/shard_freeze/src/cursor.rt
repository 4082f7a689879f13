//! The closed words of a shard and the cursors over them: what the crates above call.
//!
//! A cursor has some entries of the shard's sorted map left, and gives them one by one. After want of memory it has
//! those left that it had.

ghost use Rattle.std.specs.Prelude.{◌≡◌, ◌∷◌, [], IfOk, OnErr};
ghost use Rattle.trie_image.specs.WellFormed.{HasLedger};
ghost use Rattle.shard_freeze.specs.Sorted.{entries_made, entries_from};
ghost use Rattle.shard_freeze.specs.Walk.{StandsInTrie};
ghost use Rattle.shard_freeze.specs.Cursor.{GivesEntry, GivesInto, entry_given, left_made};

use crate::record::copy_value;
use crate::walk::Walk;
use key_types::{ByteList, KeyBytes, NoMemory, ValueBytes};
use std::alloc::Global;
use std::marker::Model;
use std::snapshot::Snapshot;
use trie_rule::Words;

/// A key of a shard and the value of its last put.
#[derive(Debug, Drop)]
pub struct Entry {
    pub key: KeyBytes,
    pub value: ValueBytes,
}

/// A shard that is closed. Contracts see its words and the puts that were made.
#[derive(Drop)]
pub struct Frozen {
    words: Words,
}

impl Model for Frozen {
    ghost use Rattle.trie_rule.specs.Seats.{KeptWords};

    ghost Value = { KeptWords };

    ghost view = { λ f. f.words };
}

/// A place in the sorted map of a shard. Contracts see the shard and the entries that are left.
#[derive(Drop)]
pub struct Cursor {
    walk: Walk,
    frozen: Snapshot<Words>,
}

impl Model for Cursor {
    ghost use Rattle.shard_freeze.specs.Walk.{StandsInTrie};
    ghost use Rattle.shard_freeze.specs.Cursor.{CursorAt, left_made};

    ghost Value = { CursorAt };

    ghost view = { λ c. record { frozen = c.frozen.value; left = left_made c.frozen.value c.walk } };

    ghost invariant = { λ c. StandsInTrie c.frozen.value.words c.walk };
}

/// Puts the entry that a walk comes to next into two buffers, in place of what stands there. Whether there was one.
fn list_next(
    words: &Words,
    walk: &mut Walk,
    key: &mut ByteList,
    value: &mut ByteList,
) -> Result<bool, NoMemory>
    requires stands { StandsInTrie words.now.words walk.old }
    ensures stands { StandsInTrie words.now.words walk.new }
    ensures gives { let left = left_made words.now in
        IfOk result (λ some. GivesInto (left walk.old) some key.new value.new (left walk.new)) }
    ensures err { OnErr result (left_made words.now walk.new ≡ left_made words.now walk.old) }
{
    words.is_standing();
    walk.settle(words)?;
    if walk.here == 0 {
        return Ok(false);
    }
    copy_value(words, 0xffff_ffff - walk.here, value)?;
    key.truncate(0);
    key.extend(walk.key.as_slice())?;
    walk.here = 0;
    Ok(true)
}

/// The walk to the first key that isn't below `from`.
fn walk_from(alloc: Global, words: &Words, from: &[u8]) -> Result<Walk, NoMemory>
    ensures stands { IfOk result (λ walk. StandsInTrie words.now.words walk) }
    ensures left { let all = entries_made words.now.made in
        IfOk result (λ walk. left_made words.now walk ≡ entries_from from.now all) }
{
    words.is_standing();
    let mut walk = Walk::at_root(alloc, words);
    walk.seek(words, from)?;
    Ok(walk)
}

impl Frozen {
    /// The shard of words that are closed.
    pub fn of(words: Words) -> Frozen
        ensures { result ≡ words }
    {
        Frozen { words }
    }

    /// A cursor that gives the entries whose keys aren't below `from`.
    pub fn cursor(&self, alloc: Global, from: &[u8]) -> Result<Cursor, NoMemory>
        ensures own { IfOk result (λ cursor. cursor.frozen ≡ self.now) }
        ensures left { IfOk result (λ cursor. cursor.left ≡ entries_from from.now (entries_made self.now.made)) }
    {
        let walk = walk_from(alloc, &self.words, from)?;
        Ok(Cursor {
            walk,
            frozen: Snapshot::of(&self.words),
        })
    }

    /// Puts the next entry into two buffers, in place of what stands there, and answers whether there was one.
    ///
    /// The buffers keep what they have allocated, so a walk over a shard allocates little. Where there was no memory,
    /// they may hold a part of the entry.
    pub fn next_into(
        &self,
        cursor: &mut Cursor,
        key: &mut ByteList,
        value: &mut ByteList,
    ) -> Result<bool, NoMemory>
        requires { cursor.old.frozen ≡ self.now }
        ensures own { cursor.new.frozen ≡ self.now }
        ensures gives { IfOk result (λ some. GivesInto cursor.old.left some key.new value.new cursor.new.left) }
        ensures err { OnErr result (cursor.new.left ≡ cursor.old.left) }
    {
        list_next(&self.words, &mut cursor.walk, key, value)
    }

    /// The next entry, or None exactly where none is left.
    pub fn next(&self, alloc: Global, cursor: &mut Cursor) -> Result<Option<Entry>, NoMemory>
        requires { cursor.old.frozen ≡ self.now }
        ensures own { cursor.new.frozen ≡ self.now }
        ensures gives { IfOk result (λ entry. GivesEntry cursor.old.left (entry_given entry) cursor.new.left) }
        ensures err { OnErr result (cursor.new.left ≡ cursor.old.left) }
    {
        let mut key = ByteList::new(alloc);
        let mut value = ByteList::new(alloc);
        if self.next_into(cursor, &mut key, &mut value)? {
            Ok(Some(Entry { key, value }))
        } else {
            Ok(None)
        }
    }
}
