//! What the command prints of a range, from the texts of its bounds to the last line.
ghost use Rattle.std.specs.Prelude.{◌≡◌, ◌≤◌, Err, IfSome, IsSome};
ghost use Rattle.std.specs.Option.{option_copied};
ghost use Rattle.outside.specs.Causes.{Rose};
ghost use Rattle.outside.specs.Files.{bytes_of};
ghost use Rattle.key_types.specs.Columns.{columns_of};
ghost use Rattle.key_types.specs.Kinds.{kinds_of};
ghost use Rattle.row_text.specs.Lines.{HoldsText};
ghost use Rattle.table_files.specs.Names.{data_id};
ghost use Rattle.table_reader.specs.Left.{IsBound};
ghost use Rattle.table_reader.specs.Opened.{StandsIn};
ghost use Rattle.table_reader.specs.Scans.{IsInFile, ScanStands};
ghost use Rattle.scan_tool.specs.PrintReads.{EntriesWithin, NamedWithin, PrintsWithin, RangeWithin, TurnsWithin};
ghost use Rattle.scan_tool.specs.Printing.{Prints, PrintsIn, PrintsRange};
ghost use Rattle.scan_tool.specs.Steps.{Begun, PrintsEntries, PrintsFrom, TurnIs};

use crate::error::ScanError;
use crate::lines::Lines;
use crate::range::read_range;
use outside::{Sink, Store};
use std::alloc::Global;
use table_reader::{BoundString, OpenTable, Scan};

/// Reads the next entry of a scan and puts its line behind the others; `false` where none is left.
fn turn<K: Store>(
    alloc: Global,
    store: &mut K,
    table: &OpenTable,
    scan: &mut Scan,
    lines: &mut Lines,
) -> Result<bool, ScanError>
    requires stands { ScanStands (K.files store.old) table.now.generation scan.old }
    requires place { IsInFile (columns_of table.now.schema) scan.old }
    requires held { HoldsText (kinds_of table.now.schema.partition) lines.old.key lines.old.partition }
    requires rows { lines.old.rows ≤ scan.old.window.at }
    ensures turn { TurnIs (columns_of table.now.schema) (K.files store.old) table.now.generation scan.old scan.new
        lines.old lines.new result }
    ensures reads { IfSome (K.files store.old) (λ m. TurnsWithin (columns_of table.now.schema)
        (bytes_of m (data_id table.now.generation)) scan.old scan.new (K.reads store.old) (K.reads store.new)) }
    ensures stands { ScanStands (K.files store.new) table.now.generation scan.new }
    ensures files { K.files store.new ≡ K.files store.old }
    ensures later { K.faults store.old ≤ K.faults store.new }
    ensures fault { result ≡ Err ScanError.StoreFault → Rose (K.faults store.old) (K.faults store.new) }
    ensures no_sink { ¬ (result ≡ Err ScanError.SinkFault) }
{
    match table.next_entry(store, scan) {
        Ok(Some(entry)) => match lines.put(alloc, table.schema(), &entry) {
            Ok(()) => {
                scan.reuse(entry);
                Ok(true)
            }
            Err(e) => Err(ScanError::from(e)),
        },
        Ok(None) => Ok(false),
        Err(e) => Err(ScanError::from(e)),
    }
}

/// Prints the entries that a scan has left, but for the text that isn't enough to push.
fn print_entries<O: Sink, K: Store>(
    alloc: Global,
    out: &mut O,
    store: &mut K,
    table: &OpenTable,
    scan: &mut Scan,
    lines: &mut Lines,
) -> Result<(), ScanError>
    requires stands { ScanStands (K.files store.old) table.now.generation scan.old }
    requires place { IsInFile (columns_of table.now.schema) scan.old }
    requires fresh { Begun lines.old }
    ensures prints { PrintsEntries (columns_of table.now.schema) (K.files store.old) table.now.generation scan.old
        lines.new (O.written out.old) (O.written out.new) result }
    ensures reads { IfSome (K.files store.old) (λ m. EntriesWithin (columns_of table.now.schema)
        (bytes_of m (data_id table.now.generation)) scan.old (K.reads store.old) (K.reads store.new)) }
    ensures files { K.files store.new ≡ K.files store.old }
    ensures store_later { K.faults store.old ≤ K.faults store.new }
    ensures store_fault { result ≡ Err ScanError.StoreFault → Rose (K.faults store.old) (K.faults store.new) }
    ensures later { O.faults out.old ≤ O.faults out.new }
    ensures fault { result ≡ Err ScanError.SinkFault → Rose (O.faults out.old) (O.faults out.new) }
{
    'entries: loop {
        match turn(alloc, store, table, scan, lines) {
            Ok(true) => {}
            Ok(false) => return Ok(()),
            Err(e) => return Err(e),
        }
        match lines.push_block(out) {
            Ok(()) => {}
            Err(e) => return Err(ScanError::from(e)),
        }
    }
}

/// Prints the entries that a scan has left and how many rows there are. The lines before damage or a fault of the
/// store are pushed too.
fn print_scan<O: Sink, K: Store>(
    alloc: Global,
    out: &mut O,
    store: &mut K,
    table: &OpenTable,
    scan: &mut Scan,
) -> Result<(), ScanError>
    requires stands { ScanStands (K.files store.old) table.now.generation scan.old }
    requires place { IsInFile (columns_of table.now.schema) scan.old }
    ensures prints { PrintsFrom (columns_of table.now.schema) (K.files store.old) table.now.generation scan.old
        (O.written out.old) (O.written out.new) result }
    ensures reads { IfSome (K.files store.old) (λ m. EntriesWithin (columns_of table.now.schema)
        (bytes_of m (data_id table.now.generation)) scan.old (K.reads store.old) (K.reads store.new)) }
    ensures files { K.files store.new ≡ K.files store.old }
    ensures store_later { K.faults store.old ≤ K.faults store.new }
    ensures store_fault { result ≡ Err ScanError.StoreFault → Rose (K.faults store.old) (K.faults store.new) }
    ensures later { O.faults out.old ≤ O.faults out.new }
    ensures fault { result ≡ Err ScanError.SinkFault → Rose (O.faults out.old) (O.faults out.new) }
{
    let mut lines = Lines::new(alloc);
    match print_entries(alloc, out, store, table, scan, &mut lines) {
        Ok(()) => lines.end(out),
        Err(ScanError::StoreFault) => Err(lines.stop(out, ScanError::StoreFault)),
        Err(ScanError::Damaged(damage)) => Err(lines.stop(out, ScanError::Damaged(damage))),
        Err(e) => Err(e),
    }
}

/// Prints the entries between two bounds of an open table.
fn print_between<O: Sink, K: Store>(
    alloc: Global,
    out: &mut O,
    store: &mut K,
    table: &mut OpenTable,
    from: Option<BoundString>,
    to: Option<BoundString>,
) -> Result<(), ScanError>
    requires stands { StandsIn (K.files store.old) table.old }
    requires from { IsBound (columns_of table.old.schema) from }
    ensures prints { Prints (columns_of table.old.schema) (K.files store.old) table.old.generation from to
        (O.written out.old) (O.written out.new) result }
    ensures reads { IfSome (K.files store.old) (λ m. RangeWithin m table.old.generation
        (columns_of table.old.schema) 258 from to (K.reads store.old) (K.reads store.new)) }
    ensures files { K.files store.new ≡ K.files store.old }
    ensures store_later { K.faults store.old ≤ K.faults store.new }
    ensures store_fault { result ≡ Err ScanError.StoreFault → Rose (K.faults store.old) (K.faults store.new) }
    ensures later { O.faults out.old ≤ O.faults out.new }
    ensures fault { result ≡ Err ScanError.SinkFault → Rose (O.faults out.old) (O.faults out.new) }
{
    match table.load_footer(store) {
        Ok(()) => {}
        Err(e) => return Err(ScanError::from(e)),
    }
    match table.scan_between(store, from, to) {
        Ok(mut scan) => print_scan(alloc, out, store, table, &mut scan),
        Err(e) => Err(ScanError::from(e)),
    }
}

/// Prints the entries of an open table between the bounds of two texts.
fn print_in<O: Sink, K: Store>(
    alloc: Global,
    out: &mut O,
    store: &mut K,
    table: &mut OpenTable,
    from: Option<&[u8]>,
    to: Option<&[u8]>,
) -> Result<(), ScanError>
    requires stands { StandsIn (K.files store.old) table.old }
    ensures prints { PrintsIn (columns_of table.old.schema) (K.files store.old) table.old.generation
        (option_copied from.entry) (option_copied to.entry) (O.written out.old) (O.written out.new) result }
    ensures reads { IfSome (K.files store.old) (λ m. NamedWithin m table.old.generation
        (columns_of table.old.schema) 258 (option_copied from.entry) (option_copied to.entry)
        (K.reads store.old) (K.reads store.new)) }
    ensures files { K.files store.new ≡ K.files store.old }
    ensures store_later { K.faults store.old ≤ K.faults store.new }
    ensures store_fault { result ≡ Err ScanError.StoreFault → Rose (K.faults store.old) (K.faults store.new) }
    ensures later { O.faults out.old ≤ O.faults out.new }
    ensures fault { result ≡ Err ScanError.SinkFault → Rose (O.faults out.old) (O.faults out.new) }
{
    match read_range(alloc, table.schema(), from, to) {
        Ok((lower, upper)) => print_between(alloc, out, store, table, lower, upper),
        Err(e) => Err(ScanError::from(e)),
    }
}

/// Prints the rows and static values that the files of a generation have between the bounds of two texts, as they are
/// read, and behind them how many rows there are. The texts are read after the schema's file, and before the other
/// files.
///
/// What was read before damage or a fault of the store is printed; after a fault of the sink a prefix of it.
pub fn print_range<O: Sink, K: Store>(
    alloc: Global,
    out: &mut O,
    store: &mut K,
    generation: u32,
    from: Option<&[u8]>,
    to: Option<&[u8]>,
) -> Result<(), ScanError>
    ensures prints { PrintsRange (K.files store.old) generation (option_copied from.entry) (option_copied to.entry)
        (O.written out.old) (O.written out.new) result }
    ensures reads { IfSome (K.files store.old) (λ m. PrintsWithin m generation (option_copied from.entry)
        (option_copied to.entry) (K.reads store.old) (K.reads store.new)) }
    ensures files { K.files store.new ≡ K.files store.old }
    ensures store_later { K.faults store.old ≤ K.faults store.new }
    ensures store_fault { result ≡ Err ScanError.StoreFault → Rose (K.faults store.old) (K.faults store.new) }
    ensures later { O.faults out.old ≤ O.faults out.new }
    ensures fault { result ≡ Err ScanError.SinkFault → Rose (O.faults out.old) (O.faults out.new) }
{
    match OpenTable::open(alloc, store, generation) {
        Ok(mut table) => print_in(alloc, out, store, &mut table, from, to),
        Err(e) => Err(ScanError::from(e)),
    }
}
