//! A walk over Data.db, block by block and partition by partition, which looks at the order of keys. All steps of a
//! check go through Data.db by it. It keeps the strings of one partition and of two rows, and what is read ahead.
ghost use Rattle.std.specs.Prelude.{◌≡◌, ◌↔◌, ◌≤◌, ◌<◌, ◌+◌, ◌-◌, ◌^◌, [], true, length, Ok, Err, Some, None, IfErr, IfOk, IfSome, IsTrue};
ghost use Rattle.std.specs.declared.cmp.Ordering.TheVariants.{Less};
ghost use Rattle.outside.specs.Causes.{Rose};
ghost use Rattle.key_types.specs.Columns.{columns_of};
ghost use Rattle.key_types.specs.Table.{string_cmp};
ghost use Rattle.key_decode.specs.Strings.{IsStringOf};
ghost use Rattle.data_file.specs.declared.reading.DataError.TheVariants.{StoreFault, NoMemory};
ghost use Rattle.table_reader.specs.Scans.{unread_at};
ghost use Rattle.table_reader.specs.Window.{HasEnough};
ghost use Rattle.data_walk.specs.declared.refusal.Refusal.TheVariants.{Unread};
ghost use Rattle.data_walk.specs.DataWalk.{begins_block, place_at, place_of, CountsBlocks, Enters, FindsBlock, FindsPartition, HasEntry, IsPlace, MeetsRow, OverAll, OverFile};

use crate::clash::Clash;
use crate::order::{ascends, begins_block, has_entry, replace};
use crate::refusal::{Refusal, clash_at, damaged_at};
use bti_nodes::Cause;
use data_file::{DataError, ParseRow, head_in, row_in};
use key_types::{ByteList, KeyBytes, Schema};
use outside::{FileId, Part, Store};
use std::alloc::Global;
use table_reader::{Window, static_part_behind};

/// Where a walk over Data.db stands.
#[derive(Drop)]
pub struct DataWalk {
    pub window: Window,
    /// The string of the partition that it is in or was in last; empty before the first one.
    pub key: KeyBytes,
    /// Where the head of that partition stands.
    pub head: u64,
    /// The string of the partition's row that it passed last; empty before the first one.
    pub row: KeyBytes,
    /// The string of the row before that.
    pub before: KeyBytes,
    /// Where the block begins that it is in.
    pub block: u64,
    /// How many rows of the partition it has passed.
    pub rows: u64,
}

/// A partition that was passed: where its head stands, how many blocks it has, and how many rows.
#[derive(Clone, Copy, Debug, PartialEq, Eq)]
pub struct PartitionSum {
    pub position: u64,
    pub blocks: u64,
    pub rows: u64,
}

/// What stood behind a row or a head.
#[derive(Clone, Copy, Debug, PartialEq, Eq)]
pub enum Met {
    /// A row of the same block.
    Row,
    /// The first row of another block.
    Block,
    /// The end of the partition.
    End,
}

impl DataWalk {
    /// A walk that begins at the head of a partition, in a Data.db of so many bytes.
    pub fn new(alloc: Global, at: u64, limit: u64) -> DataWalk
        requires place { at ≤ limit }
        requires limit { limit < 2 ^ 62 }
        ensures window { result.window ≡ unread_at at limit }
        ensures place { place_of result ≡ place_at at }
    {
        DataWalk {
            window: Window::new(alloc, at, limit),
            key: ByteList::new(alloc),
            head: at,
            row: ByteList::new(alloc),
            before: ByteList::new(alloc),
            block: at,
            rows: 0,
        }
    }

    /// Goes over the head that stands next and its static part, and says whether the partition has a static value;
    /// `None` at the file's end.
    fn pass_head(&mut self, schema: &Schema) -> Result<Option<bool>, Refusal>
        requires full { HasEnough self.old.window }
        ensures told { OverAll (Enters (columns_of schema.now)) self.old self.new result }
        ensures place { IfOk result (λ found. IfSome found (λ _. IsPlace (place_of self.new))) }
        ensures head { IfOk result (λ found. IfSome found (λ _. self.new.head ≡ self.old.window.at)) }
        ensures key { IfOk result (λ found. IfSome found (λ _. IsStringOf (columns_of schema.now).partition self.new.key
            × (string_cmp self.old.key self.new.key ≡ Less))) }
        ensures on { IfOk result (λ found. IfSome found (λ _. self.old.window.at < self.new.window.at)) }
        ensures limit { self.new.window.limit ≡ self.old.window.limit }
        ensures fault { ¬ (result ≡ Err (Unread StoreFault)) }
    {
        let bytes = self.window.unread();
        if bytes.is_empty() {
            return Ok(None);
        }
        let at = self.window.at();
        let Some(key) = head_in(schema, bytes) else {
            return Err(damaged_at(at, Cause::BadHead));
        };
        if !ascends(self.key.as_slice(), key) {
            return Err(clash_at(Part::Data, at, Clash::Order));
        }
        let head = 2 + key.len();
        let Some((static_part, length)) = static_part_behind(schema, bytes, head) else {
            return Err(damaged_at(at + head as u64, Cause::BadRow));
        };
        let has_static = static_part.is_some();
        replace(&mut self.key, key)?;
        self.window.pass(head + length);
        self.head = at;
        self.block = at;
        self.rows = 0;
        self.row.truncate(0);
        Ok(Some(has_static))
    }

    /// Goes to the rows of the partition that stands next, and says whether it has a static value; `None` at the file's
    /// end.
    pub fn enter<K: Store>(
        &mut self,
        schema: &Schema,
        store: &mut K,
        file: FileId,
    ) -> Result<Option<bool>, Refusal>
        ensures told { OverFile (K.files store.old) file (Enters (columns_of schema.now)) self.old self.new result }
        ensures place { IfOk result (λ found. IfSome found (λ _. IsPlace (place_of self.new))) }
        ensures head { IfOk result (λ found. IfSome found (λ _. self.new.head ≡ self.old.window.at)) }
        ensures key { IfOk result (λ found. IfSome found (λ _. IsStringOf (columns_of schema.now).partition self.new.key
            × (string_cmp self.old.key self.new.key ≡ Less))) }
        ensures on { IfOk result (λ found. IfSome found (λ _. self.old.window.at < self.new.window.at)) }
        ensures limit { self.new.window.limit ≡ self.old.window.limit }
        ensures files { K.files store.new ≡ K.files store.old }
        ensures later { K.faults store.old ≤ K.faults store.new }
        ensures fault { result ≡ Err (Unread StoreFault) → Rose (K.faults store.old) (K.faults store.new) }
    {
        self.window.fill(store, file)?;
        self.pass_head(schema)
    }

    /// Goes over the row that stands next, or over the end of the partition.
    fn pass_row(&mut self, schema: &Schema) -> Result<Met, Refusal>
        requires full { HasEnough self.old.window }
        requires place { IsPlace (place_of self.old) }
        ensures told { OverAll (MeetsRow (columns_of schema.now)) self.old self.new result }
        ensures place { IfOk result (λ _. IsPlace (place_of self.new)) }
        ensures key { self.new.key ≡ self.old.key }
        ensures head { self.new.head ≡ self.old.head }
        ensures above { result ≡ Ok Met.Block → string_cmp self.new.before self.new.row ≡ Less }
        ensures on { IfOk result (λ _. self.old.window.at < self.new.window.at) }
        ensures inside { IfOk result (λ _. self.new.window.at ≤ self.new.window.limit) }
        ensures near { IfOk result (λ _. self.new.window.at < 2 ^ 62) }
        ensures limit { self.new.window.limit ≡ self.old.window.limit }
        ensures fault { ¬ (result ≡ Err (Unread StoreFault)) }
    {
        let at = self.window.at();
        let row = match row_in(schema, self.window.unread()) {
            Ok(Some(row)) => row,
            Ok(None) => {
                self.window.pass(1);
                return Ok(Met::End);
            }
            Err(ParseRow::NoMemory) => return Err(Refusal::Unread(DataError::NoMemory)),
            Err(_) => return Err(damaged_at(at, Cause::BadRow)),
        };
        if !ascends(self.row.as_slice(), row.clustering) {
            return Err(clash_at(Part::Data, at, Clash::Order));
        }
        let begins = begins_block(self.row.as_slice(), self.block, at);
        let count = 5 + row.clustering.len() + row.value.len();
        replace(&mut self.before, row.clustering)?;
        std::mem::swap(&mut self.before, &mut self.row);
        self.window.pass(count);
        self.rows += 1;
        if !begins {
            return Ok(Met::Row);
        }
        self.block = at;
        Ok(Met::Block)
    }

    /// Goes over the rows up to the first one of another block, whose place from the head on is answered, or over the
    /// end of the partition.
    pub fn next_block<K: Store>(
        &mut self,
        schema: &Schema,
        store: &mut K,
        file: FileId,
    ) -> Result<Option<u64>, Refusal>
        requires place { IsPlace (place_of self.old) }
        ensures told { OverFile (K.files store.old) file (FindsBlock (columns_of schema.now)) self.old self.new result }
        ensures place { IfOk result (λ _. IsPlace (place_of self.new)) }
        ensures key { self.new.key ≡ self.old.key }
        ensures head { self.new.head ≡ self.old.head }
        ensures above { IfOk result (λ found. IfSome found (λ _. string_cmp self.new.before self.new.row ≡ Less)) }
        ensures on { IfOk result (λ _. self.old.window.at < self.new.window.at) }
        ensures inside { IfOk result (λ _. self.new.window.at ≤ self.new.window.limit) }
        ensures near { IfOk result (λ _. self.new.window.at < 2 ^ 62) }
        ensures limit { self.new.window.limit ≡ self.old.window.limit }
        ensures files { K.files store.new ≡ K.files store.old }
        ensures later { K.faults store.old ≤ K.faults store.new }
        ensures fault { result ≡ Err (Unread StoreFault) → Rose (K.faults store.old) (K.faults store.new) }
    {
        'rows: loop {
            self.window.fill(store, file)?;
            match self.pass_row(schema)? {
                Met::Row => {}
                Met::Block => return Ok(Some(self.block - self.head)),
                Met::End => return Ok(None),
            }
        }
    }

    /// Goes over all rows of the partition and its end, and says how many blocks it has.
    fn count_blocks<K: Store>(
        &mut self,
        schema: &Schema,
        store: &mut K,
        file: FileId,
    ) -> Result<u64, Refusal>
        requires place { IsPlace (place_of self.old) }
        ensures told { OverFile (K.files store.old) file (λ bytes. CountsBlocks (columns_of schema.now) bytes 1)
            self.old self.new result }
        ensures place { IfOk result (λ _. IsPlace (place_of self.new)) }
        ensures key { self.new.key ≡ self.old.key }
        ensures head { self.new.head ≡ self.old.head }
        ensures on { IfOk result (λ _. self.old.window.at < self.new.window.at) }
        ensures inside { IfOk result (λ _. self.new.window.at ≤ self.new.window.limit) }
        ensures limit { self.new.window.limit ≡ self.old.window.limit }
        ensures files { K.files store.new ≡ K.files store.old }
        ensures later { K.faults store.old ≤ K.faults store.new }
        ensures fault { result ≡ Err (Unread StoreFault) → Rose (K.faults store.old) (K.faults store.new) }
    {
        let mut blocks = 1;
        'counted: loop {
            match self.next_block(schema, store, file)? {
                Some(_) => blocks += 1,
                None => return Ok(blocks),
            }
        }
    }

    /// Goes over the partition that stands next; `None` at the file's end.
    pub fn next<K: Store>(
        &mut self,
        schema: &Schema,
        store: &mut K,
        file: FileId,
    ) -> Result<Option<PartitionSum>, Refusal>
        ensures told { OverFile (K.files store.old) file (FindsPartition (columns_of schema.now))
            self.old self.new result }
        ensures key { IfOk result (λ found. IfSome found (λ _. IsStringOf (columns_of schema.now).partition self.new.key
            × (string_cmp self.old.key self.new.key ≡ Less))) }
        ensures on { IfOk result (λ found. IfSome found (λ _. (self.old.window.at < self.new.window.at)
            × (self.new.window.at ≤ self.new.window.limit))) }
        ensures position { IfOk result (λ found. IfSome found (λ sum. sum.position ≡ self.old.window.at)) }
        ensures rows { IfOk result (λ found. IfSome found (λ sum. sum.position + sum.rows ≤ self.new.window.at)) }
        ensures limit { self.new.window.limit ≡ self.old.window.limit }
        ensures files { K.files store.new ≡ K.files store.old }
        ensures later { K.faults store.old ≤ K.faults store.new }
        ensures fault { result ≡ Err (Unread StoreFault) → Rose (K.faults store.old) (K.faults store.new) }
    {
        let Some(has_static) = self.enter(schema, store, file)? else {
            return Ok(None);
        };
        let blocks = self.count_blocks(schema, store, file)?;
        if !has_entry(has_static, self.rows) {
            return Err(clash_at(Part::Data, self.head, Clash::Order));
        }
        Ok(Some(PartitionSum {
            position: self.head,
            blocks,
            rows: self.rows,
        }))
    }
}
