//! The text that a scan prints, and how much of it isn't pushed yet. The lines put so far are always those of the
//! entries that were given; the text of the partition that was met last is kept, so that its components are printed
//! once.
ghost use Rattle.std.specs.Prelude.{◌≡◌, ◌⊎◌, ◌<◌, ◌≤◌, ◌+◌, ◌^◌, ◌++◌, [], Err, IfOk, OnErr, OnOk};
ghost use Rattle.outside.specs.Causes.{Rose};
ghost use Rattle.outside.specs.Told.{WhereTold};
ghost use Rattle.key_types.specs.Columns.{columns_of};
ghost use Rattle.key_types.specs.Kinds.{kinds_of};
ghost use Rattle.row_text.specs.Lines.{HoldsText};
ghost use Rattle.row_text.specs.Printed.{count_line};
ghost use Rattle.table_reader.specs.Ranges.{IsEntryOf};
ghost use Rattle.scan_tool.specs.Printing.{AppendsPrefix};
ghost use Rattle.scan_tool.specs.Steps.{EndsText, IsPushed, PutsLine, StopsWith};

use crate::error::ScanError;
use key_types::{ByteList, KeyBytes, NoMemory, Schema};
use outside::{Failed, Sink};
use row_text::{put_count, put_row, put_static, turn_text};
use std::alloc::Global;
use table_reader::EntryStrings;

/// A text is pushed where it has at least so many bytes.
const BLOCK: usize = 65_536;

/// The text that isn't pushed yet, how many rows were put so far, and the string of the partition that was met last
/// with the text of its components.
#[derive(Drop)]
pub struct Lines {
    pub text: ByteList,
    pub rows: u64,
    pub key: KeyBytes,
    pub partition: ByteList,
}

impl Lines {
    /// No lines.
    pub fn new(alloc: Global) -> Lines
        ensures text { result.text ≡ [] }
        ensures rows { result.rows ≡ 0 }
        ensures key { result.key ≡ [] }
    {
        Lines {
            text: ByteList::new(alloc),
            rows: 0,
            key: KeyBytes::new(alloc),
            partition: ByteList::new(alloc),
        }
    }

    /// Puts the line of an entry behind the others. Without memory a part of it may be there.
    pub fn put(
        &mut self,
        alloc: Global,
        schema: &Schema,
        entry: &EntryStrings,
    ) -> Result<(), NoMemory>
        requires entry { IsEntryOf (columns_of schema.now) entry.now }
        requires held { HoldsText (kinds_of schema.now.partition) self.old.key self.old.partition }
        requires room { self.old.rows + 1 < 2 ^ 64 }
        ensures line { OnOk result (PutsLine (columns_of schema.now) entry.now self.old self.new) }
        ensures held { OnOk result (HoldsText (kinds_of schema.now.partition) self.new.key self.new.partition) }
    {
        let partition = entry.partition.as_slice();
        turn_text(&mut self.partition, &mut self.key, alloc, schema, partition)?;
        let text = self.partition.as_slice();
        let value = entry.value.as_slice();
        match &entry.clustering {
            Some(clustering) => {
                self.rows += 1;
                put_row(
                    &mut self.text,
                    alloc,
                    schema,
                    text,
                    clustering.as_slice(),
                    value,
                )
            }
            None => put_static(&mut self.text, schema, text, value),
        }
    }

    /// Pushes the text where there is enough of it.
    pub fn push_block<O: Sink>(&mut self, out: &mut O) -> Result<(), Failed>
        ensures pushed { IfOk result (λ _. IsPushed self.old.text self.new.text (O.written out.old) (O.written out.new)) }
        ensures cut { OnErr result (WhereTold (O.written out.old) (O.written out.new) (AppendsPrefix self.old.text)) }
        ensures rows { self.new.rows ≡ self.old.rows }
        ensures key { self.new.key ≡ self.old.key }
        ensures partition { self.new.partition ≡ self.old.partition }
        ensures later { O.faults out.old ≤ O.faults out.new }
        ensures fault { OnErr result (Rose (O.faults out.old) (O.faults out.new)) }
    {
        if self.text.len() < BLOCK {
            return Ok(());
        }
        out.push(self.text.as_slice())?;
        self.text.truncate(0);
        Ok(())
    }

    /// Pushes what is left of the text, and the line that counts the rows.
    pub fn end<O: Sink>(&mut self, out: &mut O) -> Result<(), ScanError>
        ensures ends { EndsText result self.old.text (count_line self.old.rows) (O.written out.old) (O.written out.new) }
        ensures later { O.faults out.old ≤ O.faults out.new }
        ensures fault { result ≡ Err ScanError.SinkFault → Rose (O.faults out.old) (O.faults out.new) }
    {
        put_count(&mut self.text, self.rows)?;
        out.push(self.text.as_slice())?;
        Ok(())
    }

    /// Pushes what is left of the text before an error, which it answers; or that of the sink.
    pub fn stop<O: Sink>(&self, out: &mut O, e: ScanError) -> ScanError
        ensures told { StopsWith e result self.now.text (O.written out.old) (O.written out.new) }
        ensures later { O.faults out.old ≤ O.faults out.new }
        ensures fault { (result ≡ e) ⊎ Rose (O.faults out.old) (O.faults out.new) }
    {
        match out.push(self.text.as_slice()) {
            Ok(()) => e,
            Err(Failed) => ScanError::SinkFault,
        }
    }
}
