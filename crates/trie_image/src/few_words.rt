//! At most sixty words, in memory of their own size.

ghost use Rattle.std.specs.Prelude.{◌≡◌, ◌+◌, ◌<◌, ◌≤◌, [], ◌∷◌, ◌++◌, length, slice_get, Some};

use std::marker::Model;

/// As many words as the further cells of a put have at most. Contracts see it as their list.
#[derive(Debug, Drop)]
pub struct FewWords {
    words: [u64; 60],
    count: usize,
}

impl Model for FewWords {
    ghost use Rattle.std.specs.Prelude.{ℕ, ◌≤◌, List, take};

    ghost Value = { List ℕ };

    ghost view = { λ a. take a.count a.words };

    ghost invariant = { λ a. a.count ≤ 60 };
}

impl FewWords {
    /// No words.
    pub fn new() -> FewWords
        ensures { result ≡ [] }
    {
        FewWords {
            words: [0; 60],
            count: 0,
        }
    }

    /// No words again.
    pub fn clear(&mut self)
        ensures { self.new ≡ [] }
    {
        self.count = 0;
    }

    /// The number of words.
    pub fn len(&self) -> usize
        ensures count { result ≡ length self.now }
        ensures few { result ≤ 60 }
    {
        self.count
    }

    /// A word more.
    pub fn push(&mut self, word: u64)
        requires { length self.old < 60 }
        ensures { self.new ≡ self.old ++ word ∷ [] }
    {
        self.words[self.count] = word;
        self.count += 1;
    }

    /// The four words of a cell more.
    pub fn push_cell(&mut self, cell: [u64; 4])
        requires { length self.old + 4 ≤ 60 }
        ensures { self.new ≡ self.old ++ cell }
    {
        self.push(cell[0]);
        self.push(cell[1]);
        self.push(cell[2]);
        self.push(cell[3]);
    }

    /// All of them.
    pub fn as_slice(&self) -> &[u64]
        ensures { result.now ≡ self.now }
    {
        self.words.split_at(self.count).0
    }

    /// The word at a place.
    pub fn at(&self, place: usize) -> u64
        requires { place < length self.now }
        ensures { slice_get self.now place ≡ Some result }
    {
        let words: &[u64] = &self.words;
        words[place]
    }
}
