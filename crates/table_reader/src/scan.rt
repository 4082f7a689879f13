//! Scans over a range of a table's entries, in the order of their strings. `scan_between` finds where the range begins,
//! and `next_entry` gives its entries one by one. Between two calls a scan holds what it has read ahead of Data.db.
ghost use Rattle.std.specs.Prelude.{◌≡◌, ◌≤◌, ◌+◌, ◌*◌, ◌<◌, ◌^◌, length, max, Err, IfOk, IfSome, IsSome};
ghost use Rattle.outside.specs.Causes.{Rose};
ghost use Rattle.outside.specs.Files.{bytes_of};
ghost use Rattle.key_types.specs.Columns.{columns_of};
ghost use Rattle.table_files.specs.Names.{data_id};
ghost use Rattle.table_reader.specs.Opened.{StandsIn};
ghost use Rattle.table_reader.specs.Ranges.{scanning_of};
ghost use Rattle.table_reader.specs.Scans.{unread_at, BeginsWalk, GivesNext, GoesTo, IsInFile, IsPlaced, Scans, ScanStands};
ghost use Rattle.table_reader.specs.Left.{IsBound};
ghost use Rattle.table_reader.specs.SeekReads.{AlwaysWithinScan, WithinScan};
ghost use Rattle.table_reader.specs.Gets.{bytes_in};
ghost use Rattle.table_reader.specs.Going.{IsNear};
ghost use Rattle.table_reader.specs.Window.{most_ahead, page_size, read_to};

use crate::fault::TableFault;
use crate::next::next_of;
use crate::place::damaged;
use crate::seek::{BoundString, Start};
use crate::table::OpenTable;
use crate::walker::{EntryStrings, Walker};
use crate::window::Window;
use bti_nodes::Cause;
use data_file::DataError;
use key_types::KeyBytes;
use outside::Store;
use std::alloc::Global;
use std::marker::Model;
use table_files::data_id;

/// A scan over a range of a table's entries. Contracts see where it stands, what it has read ahead, and its bounds.
#[derive(Drop)]
pub struct Scan {
    walk: Walker,
    /// An entry whose buffers the next one may have.
    spare: Option<EntryStrings>,
}

impl Model for Scan {
    ghost use Rattle.table_reader.specs.Ranges.{scanning_of, Scanning};

    ghost Value = { Scanning };

    ghost view = { λ s. scanning_of s.walk };
}

impl Scan {
    /// Takes back an entry that isn't wanted any more: the next one is put together in its buffers.
    pub fn reuse(&mut self, entry: EntryStrings)
        ensures { self.new ≡ self.old }
    {
        self.spare = Some(entry);
    }
}

/// A walk at a place of Data.db, of which nothing was read.
fn walk_at(
    alloc: Global,
    at: u64,
    limit: u64,
    partition: Option<KeyBytes>,
    from: Option<BoundString>,
    to: Option<BoundString>,
) -> Walker
    requires place { at ≤ limit }
    requires limit { limit < 2 ^ 62 }
    ensures { scanning_of result ≡ record { window = unread_at at limit; inside = partition; from = from; to = to } }
{
    let inside = partition.is_some();
    Walker {
        window: Window::new(alloc, at, limit),
        key: partition.unwrap_or(KeyBytes::new(alloc)),
        inside,
        from,
        to,
    }
}

/// The walk that begins there, in a Data.db of so many bytes; at its end where there is no such place.
fn walk_from(
    alloc: Global,
    limit: u64,
    from: Option<BoundString>,
    to: Option<BoundString>,
    start: Option<Start>,
) -> Result<Walker, DataError>
    requires { limit < 2 ^ 62 }
    ensures begins { BeginsWalk limit from to start result }
    ensures placed { IfOk result (IsPlaced start) }
    ensures fault { ¬ (result ≡ Err DataError.StoreFault) }
{
    let Some(start) = start else {
        return Ok(walk_at(alloc, limit, limit, None, from, to));
    };
    if limit < start.at {
        return Err(damaged(start.at, Cause::BadRow));
    }
    Ok(walk_at(alloc, start.at, limit, start.partition, from, to))
}

/// The walk that begins there, in the Data.db of a generation.
fn begin<K: Store>(
    alloc: Global,
    store: &mut K,
    generation: u32,
    from: Option<BoundString>,
    to: Option<BoundString>,
    start: Option<Start>,
) -> Result<Walker, DataError>
    ensures begins { IfSome (K.files store.old) (λ m. BeginsWalk (length (bytes_of m (data_id generation))) from to start result) }
    ensures placed { IfOk result (IsPlaced start) }
    ensures files { K.files store.new ≡ K.files store.old }
    ensures reads { K.reads store.new ≡ K.reads store.old }
    ensures later { K.faults store.old ≤ K.faults store.new }
    ensures fault { result ≡ Err DataError.StoreFault → Rose (K.faults store.old) (K.faults store.new) }
{
    let limit = store.size(data_id(generation))?.unwrap_or(0);
    walk_from(alloc, limit, from, to, start)
}

impl OpenTable {
    /// Begins a scan of the entries between two bounds, or from the start or to the end where one isn't given. Damage is
    /// told of a place that the search for the lower bound comes to.
    pub fn scan_between<K: Store>(
        &mut self,
        store: &mut K,
        from: Option<BoundString>,
        to: Option<BoundString>,
    ) -> Result<Scan, TableFault>
        requires stands { StandsIn (K.files store.old) self.old }
        requires footer { IsSome self.old.footer }
        ensures begins { IfSome (K.files store.old) (λ m. IfSome self.old.footer (λ footer.
            Scans (bytes_in (columns_of self.old.schema) m self.old.generation) footer from to result)) }
        ensures stands { StandsIn (K.files store.new) self.new }
        ensures scan { IfOk result (ScanStands (K.files store.new) self.old.generation) }
        ensures place { IfOk result (λ scan. IsBound (columns_of self.old.schema) from
            → IsInFile (columns_of self.old.schema) scan) }
        ensures whole { ¬ (result ≡ Err TableFault.Unfinished) }
        ensures same { self.new ≡ record self.old { pages = self.new.pages } }
        ensures files { K.files store.new ≡ K.files store.old }
        ensures reads { IfSome (K.files store.old) (λ m. IfSome self.old.footer (λ footer. IfOk result (λ _. WithinScan
            (bytes_in (columns_of self.old.schema) m self.old.generation) footer from
            (K.reads store.old) (K.reads store.new)))) }
        ensures within { IfSome (K.files store.old) (λ m. IfSome self.old.footer (λ footer. AlwaysWithinScan
            (bytes_in (columns_of self.old.schema) m self.old.generation) footer from
            (K.reads store.old) (K.reads store.new))) }
        ensures unread { IfSome self.old.footer (λ footer. footer.partitions ≡ 0
            → K.reads store.new ≤ K.reads store.old) }
        ensures later { K.faults store.old ≤ K.faults store.new }
        ensures fault { result ≡ Err TableFault.StoreFault → Rose (K.faults store.old) (K.faults store.new) }
    {
        let start = self.seek(store, from.as_ref())?;
        let walk = begin(self.alloc, store, self.generation, from, to, start)?;
        Ok(Scan { walk, spare: None })
    }

    /// The next entry of a scan that this table began; `None` where its range ends, or Data.db. After an error the scan
    /// has the same entries left.
    pub fn next_entry<K: Store>(
        &self,
        store: &mut K,
        scan: &mut Scan,
    ) -> Result<Option<EntryStrings>, TableFault>
        requires { ScanStands (K.files store.old) self.now.generation scan.old }
        ensures gives { IfSome (K.files store.old) (λ m. GivesNext (columns_of self.now.schema)
            (bytes_of m (data_id self.now.generation)) scan.old scan.new result) }
        ensures scan { ScanStands (K.files store.new) self.now.generation scan.new }
        ensures further { IfOk result (λ found. IfSome found (GoesTo (columns_of self.now.schema) scan.old scan.new)) }
        ensures limit { scan.new.window.limit ≡ scan.old.window.limit }
        ensures whole { ¬ (result ≡ Err TableFault.Unfinished) }
        ensures files { K.files store.new ≡ K.files store.old }
        ensures reads { page_size * K.reads store.new + read_to scan.old.window
            ≤ page_size * K.reads store.old + read_to scan.new.window + 2 * page_size }
        ensures ahead { length scan.new.window.bytes ≤ max (length scan.old.window.bytes) most_ahead }
        ensures near { IfSome (K.files store.old) (λ m.
            IsNear (columns_of self.now.schema) (bytes_of m (data_id self.now.generation)) scan.old
            → IsNear (columns_of self.now.schema) (bytes_of m (data_id self.now.generation)) scan.new
            × (K.reads store.new ≤ K.reads store.old + 64)) }
        ensures later { K.faults store.old ≤ K.faults store.new }
        ensures fault { result ≡ Err TableFault.StoreFault → Rose (K.faults store.old) (K.faults store.new) }
    {
        let file = data_id(self.generation);
        let found = next_of(
            self.alloc,
            &self.schema,
            store,
            file,
            &mut scan.walk,
            &mut scan.spare,
        )?;
        Ok(found)
    }
}
