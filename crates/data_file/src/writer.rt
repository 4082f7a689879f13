//! The writer of data files: it is given partitions with their rows in order, holds their bytes back, and appends them in
//! large pieces.
ghost use Rattle.std.specs.Prelude.{◌≡◌, ◌<◌, ◌≤◌, ◌+◌, ◌++◌, ◌∷◌, ◌^◌, [], length, IfOk, IfSome, OnOk, option_copied, Err};
ghost use Rattle.outside.specs.Causes.{Rose};
ghost use Rattle.byte_comparable.specs.Strings.{longest_string};
ghost use Rattle.data_file.specs.Listing.{end_bytes, head_bytes, row_bytes, static_bytes};
ghost use Rattle.data_file.specs.Writing.{AppendsWhole, PutsButHeld};

use bti_nodes::PackError;
use key_types::{ByteList, NoMemory};
use length_prefix::put_counted;
use outside::{FileId, Store};
use std::alloc::Global;
use std::marker::Model;

/// How many partitions and rows a table has.
#[derive(Clone, Copy, Debug, PartialEq, Eq)]
pub struct Counts {
    pub partitions: u64,
    pub rows: u64,
}

/// At least so many bytes are appended at once, but for the last ones.
const BLOCK: usize = 65_536;

/// Writes a data file from its start. Contracts see it as a `Writing`: it holds bytes back, and appends them in large
/// pieces.
///
/// After an error a prefix of the bytes that it was given stands in the file, and no further call may follow.
#[derive(Debug, Drop)]
pub struct DataWriter {
    file: FileId,
    pending: ByteList,
    position: u64,
}

impl Model for DataWriter {
    ghost use Rattle.data_file.specs.Writing.{Writing};

    ghost Value = { Writing };

    ghost view = { λ w. record { file = w.file; pending = w.pending; position = w.position } };
}

impl DataWriter {
    /// A writer of this file, of which nothing is there.
    pub fn new(alloc: Global, file: FileId) -> DataWriter
        ensures { result ≡ record { file = file; pending = []; position = 0 } }
    {
        DataWriter {
            file,
            pending: ByteList::new(alloc),
            position: 0,
        }
    }

    /// The position behind all that was written.
    pub fn position(&self) -> u64
        ensures { result ≡ self.now.position }
    {
        self.position
    }

    /// Begins the partition with this string, and answers its position.
    pub fn open_partition<K: Store>(&mut self, key: &[u8], store: &mut K) -> Result<u64, PackError>
        requires key { length key.now ≤ longest_string }
        requires place { self.old.position < 2 ^ 60 }
        ensures at { IfOk result (λ at. at ≡ self.old.position) }
        ensures position { OnOk result (self.new.position ≡ self.old.position + length (head_bytes key.now)) }
        ensures file { self.new.file ≡ self.old.file }
        ensures written { PutsButHeld (K.files store.old) (K.files store.new) self.old.file result (self.old.pending ++ head_bytes key.now) self.new.pending }
        ensures reads { K.reads store.new ≡ K.reads store.old }
        ensures later { K.faults store.old ≤ K.faults store.new }
        ensures fault { result ≡ Err PackError.StoreFault → Rose (K.faults store.old) (K.faults store.new) }
    {
        let at = self.position;
        put_counted(&mut self.pending, key)?;
        self.position = at + 2 + key.len() as u64;
        put_out(self.file, &mut self.pending, BLOCK, store)?;
        Ok(at)
    }

    /// Writes the static part of the partition that was just begun, in a table with a static type, and answers the
    /// position behind it.
    pub fn static_part<K: Store>(
        &mut self,
        value: Option<&[u8]>,
        store: &mut K,
    ) -> Result<u64, PackError>
        requires value { IfSome value (λ v. length v.now < 2 ^ 16) }
        requires place { self.old.position < 2 ^ 60 }
        ensures behind { IfOk result (λ behind. behind ≡ self.old.position + length (static_bytes (option_copied value.entry))) }
        ensures position { OnOk result (self.new.position ≡ self.old.position + length (static_bytes (option_copied value.entry))) }
        ensures file { self.new.file ≡ self.old.file }
        ensures written { PutsButHeld (K.files store.old) (K.files store.new) self.old.file result (self.old.pending ++ static_bytes (option_copied value.entry)) self.new.pending }
        ensures reads { K.reads store.new ≡ K.reads store.old }
        ensures later { K.faults store.old ≤ K.faults store.new }
        ensures fault { result ≡ Err PackError.StoreFault → Rose (K.faults store.old) (K.faults store.new) }
    {
        let behind = self.position + static_part_length(value);
        put_static_part(&mut self.pending, value)?;
        self.position = behind;
        put_out(self.file, &mut self.pending, BLOCK, store)?;
        Ok(behind)
    }

    /// Writes a row of the partition that was begun last, and answers the position behind it.
    pub fn row<K: Store>(
        &mut self,
        clustering: &[u8],
        value: &[u8],
        store: &mut K,
    ) -> Result<u64, PackError>
        requires clustering { length clustering.now ≤ longest_string }
        requires value { length value.now < 2 ^ 16 }
        requires place { self.old.position < 2 ^ 60 }
        ensures behind { IfOk result (λ behind. behind ≡ self.old.position + length (row_bytes clustering.now value.now)) }
        ensures position { OnOk result (self.new.position ≡ self.old.position + length (row_bytes clustering.now value.now)) }
        ensures file { self.new.file ≡ self.old.file }
        ensures written { PutsButHeld (K.files store.old) (K.files store.new) self.old.file result (self.old.pending ++ row_bytes clustering.now value.now) self.new.pending }
        ensures reads { K.reads store.new ≡ K.reads store.old }
        ensures later { K.faults store.old ≤ K.faults store.new }
        ensures fault { result ≡ Err PackError.StoreFault → Rose (K.faults store.old) (K.faults store.new) }
    {
        let behind = self.position + 5 + clustering.len() as u64 + value.len() as u64;
        put_row(&mut self.pending, clustering, value)?;
        self.position = behind;
        put_out(self.file, &mut self.pending, BLOCK, store)?;
        Ok(behind)
    }

    /// Ends the partition that was begun last.
    pub fn close_partition<K: Store>(&mut self, store: &mut K) -> Result<(), PackError>
        requires { self.old.position < 2 ^ 60 }
        ensures position { OnOk result (self.new.position ≡ self.old.position + length end_bytes) }
        ensures file { self.new.file ≡ self.old.file }
        ensures written { PutsButHeld (K.files store.old) (K.files store.new) self.old.file result (self.old.pending ++ end_bytes) self.new.pending }
        ensures reads { K.reads store.new ≡ K.reads store.old }
        ensures later { K.faults store.old ≤ K.faults store.new }
        ensures fault { result ≡ Err PackError.StoreFault → Rose (K.faults store.old) (K.faults store.new) }
    {
        self.pending.push(0)?;
        self.position += 1;
        put_out(self.file, &mut self.pending, BLOCK, store)
    }

    /// Appends what is held back. It makes the file also where nothing was written.
    pub fn finish<K: Store>(self, store: &mut K) -> Result<(), PackError>
        ensures written { AppendsWhole (K.files store.old) (K.files store.new) self.file result self.pending }
        ensures reads { K.reads store.new ≡ K.reads store.old }
        ensures later { K.faults store.old ≤ K.faults store.new }
        ensures fault { result ≡ Err PackError.StoreFault → Rose (K.faults store.old) (K.faults store.new) }
    {
        store.append(self.file, self.pending.as_slice())?;
        Ok(())
    }
}

fn put_row(out: &mut ByteList, clustering: &[u8], value: &[u8]) -> Result<(), NoMemory>
    requires clustering { length clustering.now < 2 ^ 16 }
    requires value { length value.now < 2 ^ 16 }
    ensures { OnOk result (out.new ≡ out.old ++ row_bytes clustering.now value.now) }
{
    out.push(1)?;
    put_counted(out, clustering)?;
    put_counted(out, value)
}

fn put_static_part(out: &mut ByteList, value: Option<&[u8]>) -> Result<(), NoMemory>
    requires { IfSome value (λ v. length v.now < 2 ^ 16) }
    ensures { OnOk result (out.new ≡ out.old ++ static_bytes (option_copied value.entry)) }
{
    match value {
        Some(value) => {
            out.push(1)?;
            put_counted(out, value)
        }
        None => out.push(0),
    }
}

/// How many bytes a static part has.
fn static_part_length(value: Option<&[u8]>) -> u64
    requires { IfSome value (λ v. length v.now < 2 ^ 16) }
    ensures length { result ≡ length (static_bytes (option_copied value.entry)) }
    ensures most { result ≤ 65538 }
{
    match value {
        Some(value) => 3 + value.len() as u64,
        None => 1,
    }
}

/// Appends the pending bytes, where there are at least so many.
fn put_out<K: Store>(
    file: FileId,
    pending: &mut ByteList,
    least: usize,
    store: &mut K,
) -> Result<(), PackError>
    ensures written { PutsButHeld (K.files store.old) (K.files store.new) file result pending.old pending.new }
    ensures reads { K.reads store.new ≡ K.reads store.old }
    ensures later { K.faults store.old ≤ K.faults store.new }
    ensures fault { result ≡ Err PackError.StoreFault → Rose (K.faults store.old) (K.faults store.new) }
{
    if pending.len() < least {
        return Ok(());
    }
    store.append(file, pending.as_slice())?;
    pending.truncate(0);
    Ok(())
}
