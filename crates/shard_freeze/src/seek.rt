//! The way of a walk to the first key that isn't below a string. A cursor is made by it.

ghost use Rattle.std.specs.Prelude.{◌≡◌, ◌≢◌, ◌≤◌, [], ◌∷◌, ◌++◌, IsTrue, IfOk, OnOk};
ghost use Rattle.cell_layout.specs.declared.Kind.TheVariants.{Prefix};
ghost use Rattle.cell_layout.specs.Pointers.{kind_at};
ghost use Rattle.trie_image.specs.WellFormed.{HasLedger};
ghost use Rattle.shard_freeze.specs.Walk.{StandsInTrie};
ghost use Rattle.shard_freeze.specs.Cursor.{StandsAbove, TakesByte, PassesRest, LeavesFrom};

use crate::edges::{least_child, pointer_in};
use crate::walk::Walk;
use cell_layout::{Kind, Ptr, kind_of};
use key_types::NoMemory;
use trie_rule::Words;

impl Walk {
    /// The node that the walk is at, without the record of a prefix cell.
    fn node_here(&self, words: &Words) -> u32
        requires image { HasLedger words.now.words }
        requires stands { StandsInTrie words.now.words self.now }
        requires there { self.now.here ≢ 0 }
        ensures { StandsAbove words.now.words self.now result }
    {
        if kind_of(Ptr(self.here)) == Some(Kind::Prefix) {
            pointer_in(words, self.here / 32, 1)
        } else {
            self.here
        }
    }

    /// Takes the next byte of a string on the way to it, or passes what is below it. Whether the way goes on.
    fn seek_byte(&mut self, words: &Words, byte: u8) -> Result<bool, NoMemory>
        requires image { HasLedger words.now.words }
        requires stands { StandsInTrie words.now.words self.old }
        ensures stands { OnOk result (StandsInTrie words.now.words self.new) }
        ensures key { IfOk result (λ more. IsTrue more → self.new.key.items ≡ self.old.key.items ++ byte ∷ []) }
        ensures on { IfOk result (λ more. IsTrue more → TakesByte words.now.words self.old byte self.new) }
        ensures off { IfOk result (λ more. (IsTrue more → ⊥) → PassesRest words.now.words self.old byte self.new) }
    {
        if self.here == 0 {
            return Ok(false);
        }
        let node = self.node_here(words);
        match least_child(words, node, byte as u32) {
            Some(edge) => {
                self.open(node)?;
                self.key.push(edge.byte)?;
                self.top.next = edge.byte as u32 + 1;
                self.here = edge.to;
                Ok(edge.byte == byte)
            }
            None => {
                self.here = 0;
                Ok(false)
            }
        }
    }

    /// Passes all keys below `from`. The walk is at its root.
    pub fn seek(&mut self, words: &Words, from: &[u8]) -> Result<(), NoMemory>
        requires image { HasLedger words.now.words }
        requires stands { StandsInTrie words.now.words self.old }
        requires key { self.old.key.items ≡ [] }
        requires below { self.old.below.items ≡ [] }
        requires top { 256 ≤ self.old.top.next }
        ensures stands { OnOk result (StandsInTrie words.now.words self.new) }
        ensures left { OnOk result (LeavesFrom words.now.words self.old.here from.now self.new) }
    {
        for byte in from {
            if !self.seek_byte(words, *byte)? {
                return Ok(());
            }
        }
        Ok(())
    }
}
