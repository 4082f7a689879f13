//! Files by generation and part, and the trait of all stores of them, whose contract the crates above use.
ghost use Rattle.std.specs.Prelude.{◌≡◌, ◌<◌, ◌≤◌, ◌^◌, ◌+◌, ◌-◌, length, List, ℕ, Option, IfOk, IsNone, ◌↔◌, min};
ghost use Rattle.outside.specs.Causes.{HasCause};
ghost use Rattle.outside.specs.Files.{file_cmp, place_of, Appends, ReadsBytes, Sizes};
ghost use Rattle.std.specs.FinMap as map;

use crate::stream::Failed;
use std::cmp::Ordering;

/// A part of a table on disk.
#[derive(Clone, Copy, Debug, PartialEq, Eq)]
pub enum Part {
    Data,
    Partitions,
    Rows,
    Schema,
}

/// The place of a part among the parts.
fn place_of(part: Part) -> u8
    ensures { result ≡ place_of part }
{
    match part {
        Part::Data => 0,
        Part::Partitions => 1,
        Part::Rows => 2,
        Part::Schema => 3,
    }
}

/// A file of a generation. Files go by their generation, and then by their part.
#[derive(Clone, Copy, Debug)]
pub struct FileId {
    pub generation: u32,
    pub part: Part,
}

impl PartialEq for FileId {
    ghost use Rattle.std.specs.Cmp.{eq_by_cmp_equiv, partial_equiv_from_equiv};
    ghost use Rattle.std.specs.Ordering.{eq_by_cmp};
    ghost use Rattle.outside.specs.Files.{file_cmp, file_cmp_total};

    ghost eq = { eq_by_cmp file_cmp };

    ghost laws = { partial_equiv_from_equiv (eq_by_cmp_equiv file_cmp_total) };

    fn eq(&self, other: &FileId) -> bool {
        self.cmp(other) == Ordering::Equal
    }
}

impl Eq for FileId {
    ghost use Rattle.std.specs.Cmp.{eq_by_cmp_equiv};
    ghost use Rattle.outside.specs.Files.{file_cmp_total};

    ghost laws = { eq_by_cmp_equiv file_cmp_total };
}

impl PartialOrd for FileId {
    ghost use Rattle.std.specs.Cmp.{partial_order_from_total};
    ghost use Rattle.std.specs.Ordering.{as_partial_cmp};
    ghost use Rattle.outside.specs.Files.{file_cmp, file_cmp_total};

    ghost partial_cmp = { as_partial_cmp file_cmp };

    ghost laws = { partial_order_from_total file_cmp_total };

    fn partial_cmp(&self, other: &FileId) -> Option<Ordering> {
        Some(self.cmp(other))
    }
}

impl Ord for FileId {
    ghost use Rattle.std.specs.Prelude.{refl};
    ghost use Rattle.outside.specs.Files.{file_cmp, file_cmp_total};

    ghost cmp = { file_cmp };

    ghost total = { file_cmp_total };

    ghost matches_partial_cmp = { λ a b. refl };

    ghost matches_eq = { λ a b. refl };

    fn cmp(&self, other: &FileId) -> Ordering {
        let generations = self.generation.cmp(&other.generation);
        generations.then(place_of(self.part).cmp(&place_of(other.part)))
    }
}

/// How many bytes of a file one read asks for at most.
pub const PAGE: usize = 4096;

/// Where files stand.
pub trait Store {
    /// The files, where the store tells them.
    ghost files: { Self → Option (map.FinMap file_cmp (List ℕ)) };

    /// How often it has failed.
    ghost faults: { Self → ℕ };

    /// How often it was read.
    ghost reads: { Self → ℕ };

    /// Puts the piece behind the file's bytes. Makes a file that isn't there.
    fn append(&mut self, file: FileId, piece: &[u8]) -> Result<(), Failed>
        ensures bytes { Appends (files self.old) (files self.new) file result piece.now }
        ensures reads { reads self.new ≡ reads self.old }
        ensures cause { HasCause (faults self.old) (faults self.new) result };

    /// Fills the front of `into` with the file's bytes from `at`.
    fn read(&mut self, file: FileId, at: u64, into: &mut [u8]) -> Result<usize, Failed>
        requires some { 0 < length into.old }
        requires page { length into.old ≤ 4096 }
        ensures bound { IfOk result (λ n. n ≤ length into.new) }
        ensures bytes { ReadsBytes (files self.old) file at result into.new }
        ensures files { files self.new ≡ files self.old }
        ensures reads { reads self.new ≡ min (reads self.old + 1) (2 ^ 64 - 1) }
        ensures cause { HasCause (faults self.old) (faults self.new) result };

    /// The file's length, and `None` where it isn't there.
    fn size(&mut self, file: FileId) -> Result<Option<u64>, Failed>
        ensures bytes { Sizes (files self.old) file result }
        ensures files { files self.new ≡ files self.old }
        ensures reads { reads self.new ≡ reads self.old }
        ensures cause { HasCause (faults self.old) (faults self.new) result };
}
