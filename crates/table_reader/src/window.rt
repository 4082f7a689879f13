//! A file, read ahead in pages from a place on. A scan walks over Data.db in one; what it holds is what the file has there,
//! and a row is looked at only where all of it is held or nothing more is there.
ghost use Rattle.std.specs.Prelude.{◌≡◌, ◌≤◌, ◌+◌, ◌*◌, ◌<◌, ◌^◌, [], true, false, drop, length, max, IfErr, IfOk, IfSome, Err};
ghost use Rattle.outside.specs.Causes.{Rose};
ghost use Rattle.outside.specs.Files.{bytes_of};
ghost use Rattle.data_file.specs.Answers.{IsStop};
ghost use Rattle.table_reader.specs.Window.{most_ahead, page_size, Continues, HasEnough, PaysReads};

use data_file::DataError;
use key_types::{ByteList, NoMemory};
use outside::{FileId, PAGE, Store};
use std::alloc::Global;
use std::marker::Model;

/// A window is read ahead where it has fewer bytes than the longest row.
const ENOUGH: usize = 66_564;

/// A window is read ahead to so many bytes, so that what is unused is moved once in a few pages.
const AHEAD: usize = 81_920;

/// The bytes of a file from a place on that were read and are not yet used. Contracts see it as `Unread`.
#[derive(Drop)]
pub struct Window {
    bytes: ByteList,
    /// Bytes that were let go, whose room serves the next reading ahead.
    spare: ByteList,
    used: usize,
    at: u64,
    limit: u64,
    whole: bool,
}

impl Model for Window {
    ghost use Rattle.std.specs.Prelude.{◌≤◌, ◌<◌, ◌+◌, ◌^◌, drop, length};
    ghost use Rattle.table_reader.specs.Window.{Unread};

    ghost Value = { Unread };

    ghost view = { λ w. record { bytes = drop w.used w.bytes; at = w.at; limit = w.limit; whole = w.whole } };

    ghost invariant = { λ w. (w.used ≤ length w.bytes) × (w.at + length (drop w.used w.bytes) ≤ w.limit) × (w.limit < 2 ^ 62) };
}

impl Window {
    /// The window at a place of a file of this length of which nothing was read.
    pub fn new(alloc: Global, at: u64, limit: u64) -> Window
        requires place { at ≤ limit }
        requires limit { limit < 2 ^ 62 }
        ensures { result ≡ record { bytes = []; at = at; limit = limit; whole = false } }
    {
        Window {
            bytes: ByteList::new(alloc),
            spare: ByteList::new(alloc),
            used: 0,
            at,
            limit,
            whole: false,
        }
    }

    /// The unused bytes.
    pub fn unread(&self) -> &[u8]
        ensures bytes { result.now ≡ self.now.bytes }
        ensures inside { self.now.at + length result.now ≤ self.now.limit }
        ensures limit { self.now.limit < 2 ^ 62 }
    {
        let (_, unread) = self.bytes.as_slice().split_at(self.used);
        unread
    }

    /// The place of the first unused byte.
    pub fn at(&self) -> u64
        ensures { result ≡ self.now.at }
    {
        self.at
    }

    /// Uses so many bytes up.
    pub fn pass(&mut self, count: usize)
        requires { count ≤ length self.old.bytes }
        ensures { self.new ≡ record { bytes = drop count self.old.bytes; at = self.old.at + count; limit = self.old.limit; whole = self.old.whole } }
    {
        let length = self.bytes.len();
        self.used = length.min(self.used + count);
        self.at += count as u64;
    }

    /// Lets the used bytes go.
    fn compact(&mut self) -> Result<(), NoMemory>
        ensures { self.new ≡ self.old }
    {
        let (_, unread) = self.bytes.as_slice().split_at(self.used);
        self.spare.truncate(0);
        self.spare.extend(unread)?;
        std::mem::swap(&mut self.bytes, &mut self.spare);
        self.used = 0;
        Ok(())
    }

    /// Reads the next page of the file behind the unused bytes, and says whether more may follow.
    fn read_page<K: Store>(
        &mut self,
        store: &mut K,
        file: FileId,
        page: &mut [u8; PAGE],
    ) -> Result<bool, DataError>
        ensures told { IfSome (K.files store.old) (λ m. Continues (bytes_of m file) self.old → Continues (bytes_of m file) self.new) }
        ensures stops { IfErr result IsStop }
        ensures more { IfOk result (λ more. more ≡ true → length self.new.bytes ≡ length self.old.bytes + page_size) }
        ensures end { IfOk result (λ more. more ≡ false → self.new.whole ≡ true) }
        ensures on { IfOk result (λ more. more ≡ true → self.new.whole ≡ self.old.whole) }
        ensures grown { length self.old.bytes ≤ length self.new.bytes }
        ensures most { length self.new.bytes ≤ length self.old.bytes + page_size }
        ensures place { self.new.at ≡ self.old.at }
        ensures limit { self.new.limit ≡ self.old.limit }
        ensures files { K.files store.new ≡ K.files store.old }
        ensures reads { K.reads store.new ≤ K.reads store.old + 1 }
        ensures later { K.faults store.old ≤ K.faults store.new }
        ensures fault { result ≡ Err DataError.StoreFault → Rose (K.faults store.old) (K.faults store.new) }
    {
        let end = self.at + self.unread().len() as u64;
        let found = store.read(file, end, page)?;
        let count = found.min((self.limit - end) as usize);
        self.bytes.extend(&page[..count])?;
        if count < PAGE {
            self.whole = true;
            return Ok(false);
        }
        Ok(true)
    }

    /// Reads the file ahead page by page, until there is enough of it or it ends.
    #[inline(never)]
    fn read_ahead<K: Store>(&mut self, store: &mut K, file: FileId) -> Result<(), DataError>
        requires open { self.old.whole ≡ false }
        requires few { length self.old.bytes < 66564 }
        ensures told { IfSome (K.files store.old) (λ m. Continues (bytes_of m file) self.old → Continues (bytes_of m file) self.new) }
        ensures stops { IfErr result IsStop }
        ensures full { IfOk result (λ _. HasEnough self.new) }
        ensures place { self.new.at ≡ self.old.at }
        ensures limit { self.new.limit ≡ self.old.limit }
        ensures files { K.files store.new ≡ K.files store.old }
        ensures kept { length self.old.bytes ≤ length self.new.bytes }
        ensures reads { page_size * K.reads store.new + length self.old.bytes
            ≤ page_size * K.reads store.old + length self.new.bytes + page_size }
        ensures paid { IfOk result (λ _. PaysReads self.old self.new (K.reads store.old) (K.reads store.new)) }
        ensures ahead { length self.new.bytes ≤ most_ahead }
        ensures later { K.faults store.old ≤ K.faults store.new }
        ensures fault { result ≡ Err DataError.StoreFault → Rose (K.faults store.old) (K.faults store.new) }
    {
        self.compact()?;
        let mut page = [0u8; PAGE];
        'pages: loop {
            if !self.read_page(store, file, &mut page)? || self.unread().len() >= AHEAD {
                return Ok(());
            }
        }
    }

    /// Reads the file ahead where the longest row isn't among the unused bytes and they don't end it.
    ///
    /// It is asked before each row, so the page stands in a function of its own: an array is paid for at entry.
    pub fn fill<K: Store>(&mut self, store: &mut K, file: FileId) -> Result<(), DataError>
        ensures told { IfSome (K.files store.old) (λ m. Continues (bytes_of m file) self.old → Continues (bytes_of m file) self.new) }
        ensures stops { IfErr result IsStop }
        ensures full { IfOk result (λ _. HasEnough self.new) }
        ensures place { self.new.at ≡ self.old.at }
        ensures limit { self.new.limit ≡ self.old.limit }
        ensures files { K.files store.new ≡ K.files store.old }
        ensures kept { length self.old.bytes ≤ length self.new.bytes }
        ensures reads { page_size * K.reads store.new + length self.old.bytes
            ≤ page_size * K.reads store.old + length self.new.bytes + page_size }
        ensures paid { IfOk result (λ _. PaysReads self.old self.new (K.reads store.old) (K.reads store.new)) }
        ensures ahead { length self.new.bytes ≤ max (length self.old.bytes) most_ahead }
        ensures later { K.faults store.old ≤ K.faults store.new }
        ensures fault { result ≡ Err DataError.StoreFault → Rose (K.faults store.old) (K.faults store.new) }
    {
        if self.whole || self.unread().len() >= ENOUGH {
            return Ok(());
        }
        self.read_ahead(store, file)
    }
}
