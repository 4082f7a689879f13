//! A store in memory with scripted failures, for tests: it tells its files.
ghost use Rattle.std.specs.Prelude.{◌≡◌, ◌↔◌, ◌⊎◌, ◌+◌, ◌-◌, ◌^◌, ◌<◌, ◌≤◌, length, min, take, Some, IfOk, IfSome, IsErr, IsSome, OnOk, OnErr, option_map};
ghost use Rattle.outside.specs.Causes.{HasCause};
ghost use Rattle.outside.specs.Files.{Appends, KeepsFront, ReadsBytes, Sizes, bytes_of};
ghost use Rattle.outside.specs.Script.{kept_by};
ghost use Rattle.std.specs.FinMap as map;

use crate::file_bytes::FileBytes;
use crate::script::{Fail, kept_by};
use crate::shelf;
use crate::store::{FileId, Store};
use crate::stream::Failed;
use std::alloc::Global;
use std::collections::BTreeMap;
use std::marker::Model;

/// A store in memory, which fails where a test wants it. Contracts see it as a `Shelf`.
#[derive(Drop)]
pub struct MemStore {
    alloc: Global,
    files: BTreeMap<FileId, FileBytes>,
    fails: Vec<Fail>,
    calls: u64,
    faults: u64,
    reads: u64,
}

impl Model for MemStore {
    ghost use Rattle.outside.specs.Memory.{Shelf, shelf_code};
    ghost use Rattle.outside.specs.Files.{files_of};

    ghost Value = { Shelf };

    ghost coded = { shelf_code };

    ghost view = { λ s. record {
      files = files_of s.files;
      fails = s.fails.items;
      calls = s.calls;
      faults = s.faults;
      reads = s.reads;
    } };
}

impl MemStore {
    /// A store without files whose calls in `fails` fail. Each append, read and size is a call.
    pub fn new(alloc: Global, fails: Vec<Fail>) -> MemStore
        ensures { result ≡ record { files = map.empty; fails = fails.items; calls = 0; faults = 0; reads = 0 } }
    {
        MemStore {
            alloc,
            files: BTreeMap::new(alloc),
            fails,
            calls: 0,
            faults: 0,
            reads: 0,
        }
    }

    /// The bytes of the file, where it is there.
    pub fn contents(&self, file: FileId) -> Option<&[u8]>
        ensures { option_map (λ s. s.now) result ≡ map.get self.now.files file }
    {
        shelf::contents(&self.files, file)
    }

    /// Sets the file, which is not counted as a call. Want of memory is a counted fault that changes no file.
    pub fn put_file(&mut self, file: FileId, bytes: Vec<u8>) -> Result<(), Failed>
        ensures ok { OnOk result (self.new ≡ record self.old { files = map.insert self.old.files file bytes.items }) }
        ensures err { OnErr result (self.new ≡ record self.old { faults = min (self.old.faults + 1) (2 ^ 64 - 1) }) }
    {
        match shelf::set_file(&mut self.files, file, FileBytes::from_vec(bytes)) {
            Ok(()) => Ok(()),
            Err(_) => {
                self.faults = self.faults.saturating_add(1);
                Err(Failed)
            }
        }
    }
}

impl Store for MemStore {
    ghost files = { λ s. Some s.files };

    ghost faults = { λ s. s.faults };

    ghost reads = { λ s. s.reads };

    fn append(&mut self, file: FileId, piece: &[u8]) -> Result<(), Failed>
        ensures bytes { Appends (Some self.old.files) (Some self.new.files) file result piece.now }
        ensures reads { self.new.reads ≡ self.old.reads }
        ensures cause { HasCause self.old.faults self.new.faults result }
        // The call is counted, and fails where the script says so.
        ensures calls { self.new.calls ≡ min (self.old.calls + 1) (2 ^ 64 - 1) }
        ensures script { self.new.fails ≡ self.old.fails }
        ensures scripted { IfSome (kept_by self.old.fails self.new.calls) (λ keep.
            IsErr result × KeepsFront self.old.files self.new.files file (take keep piece.now)) }
    {
        self.calls = self.calls.saturating_add(1);
        let keep = kept_by(self.fails.as_slice(), self.calls);
        match shelf::append(self.alloc, &mut self.files, file, piece, keep) {
            Ok(()) => Ok(()),
            Err(failed) => {
                self.faults = self.faults.saturating_add(1);
                Err(failed)
            }
        }
    }

    fn read(&mut self, file: FileId, at: u64, into: &mut [u8]) -> Result<usize, Failed>
        requires some { 0 < length into.old }
        requires page { length into.old ≤ 4096 }
        ensures bound { IfOk result (λ n. n ≤ length into.new) }
        ensures bytes { ReadsBytes (Some self.old.files) file at result into.new }
        ensures files { self.new.files ≡ self.old.files }
        ensures reads { self.new.reads ≡ min (self.old.reads + 1) (2 ^ 64 - 1) }
        ensures cause { HasCause self.old.faults self.new.faults result }
        // The call is counted, and fails where the script says so.
        ensures calls { self.new.calls ≡ min (self.old.calls + 1) (2 ^ 64 - 1) }
        ensures script { self.new.fails ≡ self.old.fails }
        ensures scripted { IsErr result ↔ (IsSome (kept_by self.old.fails self.new.calls) ⊎ (2 ^ 62 ≤ length (bytes_of self.old.files file))) }
    {
        self.calls = self.calls.saturating_add(1);
        self.reads = self.reads.saturating_add(1);
        let fails = kept_by(self.fails.as_slice(), self.calls).is_some();
        match shelf::read(&self.files, file, at, into, fails) {
            Ok(count) => Ok(count),
            Err(failed) => {
                self.faults = self.faults.saturating_add(1);
                Err(failed)
            }
        }
    }

    fn size(&mut self, file: FileId) -> Result<Option<u64>, Failed>
        ensures bytes { Sizes (Some self.old.files) file result }
        ensures files { self.new.files ≡ self.old.files }
        ensures reads { self.new.reads ≡ self.old.reads }
        ensures cause { HasCause self.old.faults self.new.faults result }
        // The call is counted, and fails where the script says so.
        ensures calls { self.new.calls ≡ min (self.old.calls + 1) (2 ^ 64 - 1) }
        ensures script { self.new.fails ≡ self.old.fails }
        ensures scripted { IsErr result ↔ (IsSome (kept_by self.old.fails self.new.calls) ⊎ (2 ^ 62 ≤ length (bytes_of self.old.files file))) }
    {
        self.calls = self.calls.saturating_add(1);
        let fails = kept_by(self.fails.as_slice(), self.calls).is_some();
        match shelf::size(&self.files, file, fails) {
            Ok(size) => Ok(size),
            Err(failed) => {
                self.faults = self.faults.saturating_add(1);
                Err(failed)
            }
        }
    }
}
