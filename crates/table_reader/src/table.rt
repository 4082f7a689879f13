//! An open table: its schema, its footer, and pages of its files. `open` reads the schema alone, and `load_footer`
//! comes before the first lookup. What a table holds is that of the files of its generation as long as nobody changes
//! them.
ghost use Rattle.std.specs.Prelude.{◌≡◌, ◌≤◌, ◌+◌, [], Err, IfOk, IfSome, IsSome, None, OnErr, OnOk};
ghost use Rattle.std.specs.Prelude.{option_copied};
ghost use Rattle.bti_nodes.specs.declared.damage.Damage.{Damage};
ghost use Rattle.outside.specs.Causes.{Rose};
ghost use Rattle.outside.specs.Files.{bytes_of};
ghost use Rattle.key_types.specs.Columns.{columns_of};
ghost use Rattle.table_files.specs.Names.{partitions_id, schema_id};
ghost use Rattle.table_reader.specs.Gets.{Gets, bytes_in};
ghost use Rattle.table_reader.specs.Opened.{LoadsFooter, OpensTable, StandsIn};
ghost use Rattle.table_reader.specs.Reads.{EndsCall, IsAlwaysBounded, IsBounded};

use crate::fault::TableFault;
use crate::get::value_of;
use index_files::{FooterNumbers, read_footer};
use key_types::{Schema, ValueBytes};
use outside::Store;
use page_cache::PageCache;
use std::alloc::Global;
use std::marker::Model;
use table_files::{partitions_id, read_schema};

/// A table of one generation that was opened. Contracts see its generation and schema, the footer's numbers once they
/// are loaded, and the pages that it holds.
#[derive(Drop)]
pub struct OpenTable {
    pub(crate) alloc: Global,
    pub(crate) generation: u32,
    pub(crate) schema: Schema,
    pub(crate) footer: Option<FooterNumbers>,
    pub(crate) pages: PageCache,
}

impl Model for OpenTable {
    ghost use Rattle.std.specs.Coded.{codes};
    ghost use Rattle.key_types.specs.contracts.kinds.ColType as col_type;
    ghost use Rattle.key_types.specs.contracts.kinds.TypeList as type_list;
    ghost use Rattle.table_reader.specs.Opened.{Opened};

    ghost Value = { Opened };

    ghost coded = { Prim.hlevel (codes, col_type.the_row.coded, type_list.the_row.coded) };

    ghost view = { λ t. record { generation = t.generation; schema = t.schema; footer = t.footer; pages = t.pages } };
}

impl OpenTable {
    /// Opens a table by its schema's file, and reads nothing else. `Unfinished` is answered exactly where that file
    /// isn't there or isn't a whole text of its grammar.
    pub fn open<K: Store>(
        alloc: Global,
        store: &mut K,
        generation: u32,
    ) -> Result<OpenTable, TableFault>
        ensures table { IfSome (K.files store.old) (λ m. OpensTable (bytes_of m (schema_id generation)) result) }
        ensures generation { IfOk result (λ t. t.generation ≡ generation) }
        ensures footer { IfOk result (λ t. t.footer ≡ None) }
        ensures pages { IfOk result (λ t. t.pages ≡ []) }
        ensures sound { (damage : Damage) → ¬ (result ≡ Err (TableFault.Damaged damage)) }
        ensures files { K.files store.new ≡ K.files store.old }
        ensures reads { K.reads store.new ≤ K.reads store.old + 1 }
        ensures later { K.faults store.old ≤ K.faults store.new }
        ensures fault { result ≡ Err TableFault.StoreFault → Rose (K.faults store.old) (K.faults store.new) }
    {
        let Some(schema) = read_schema(alloc, store, generation)? else {
            return Err(TableFault::Unfinished);
        };
        let pages = PageCache::new(alloc)?;
        Ok(OpenTable {
            alloc,
            generation,
            schema,
            footer: None,
            pages,
        })
    }

    /// The table's columns.
    pub fn schema(&self) -> &Schema
        ensures { result.now ≡ self.now.schema }
    {
        &self.schema
    }

    /// Loads the footer of the partition index. Damage is told exactly where the file has none. After an error the
    /// table has the footer that it had.
    pub fn load_footer<K: Store>(&mut self, store: &mut K) -> Result<(), TableFault>
        requires stands { StandsIn (K.files store.old) self.old }
        ensures footer { IfSome (K.files store.old) (λ m. LoadsFooter (columns_of self.old.schema)
            (bytes_of m (partitions_id self.old.generation)) self.new.footer result) }
        ensures stands { StandsIn (K.files store.new) self.new }
        ensures same { self.new ≡ record self.old { footer = self.new.footer; pages = self.new.pages } }
        ensures loaded { OnOk result (IsSome self.new.footer) }
        ensures kept { OnErr result (self.new.footer ≡ self.old.footer) }
        ensures whole { ¬ (result ≡ Err TableFault.Unfinished) }
        ensures files { K.files store.new ≡ K.files store.old }
        ensures reads { K.reads store.new ≤ K.reads store.old + 2 }
        ensures later { K.faults store.old ≤ K.faults store.new }
        ensures fault { result ≡ Err TableFault.StoreFault → Rose (K.faults store.old) (K.faults store.new) }
    {
        let file = partitions_id(self.generation);
        match read_footer(self.alloc, &self.schema, &mut self.pages, store, file) {
            Ok(numbers) => {
                self.footer = Some(numbers);
                Ok(())
            }
            Err(e) => Err(TableFault::from(e)),
        }
    }

    /// The value of a key, by the strings of its partition and of its clustering; the partition's static value where
    /// no clustering is given. `None` where the table has none. Damage is told exactly at the first damaged one of the
    /// places that a get asks for.
    pub fn get<K: Store>(
        &mut self,
        store: &mut K,
        partition: &[u8],
        clustering: Option<&[u8]>,
    ) -> Result<Option<ValueBytes>, TableFault>
        requires stands { StandsIn (K.files store.old) self.old }
        requires loaded { IsSome self.old.footer }
        ensures value { IfSome (K.files store.old) (λ m. IfSome self.old.footer (λ footer. EndsCall
            (Gets (bytes_in (columns_of self.old.schema) m self.old.generation) footer partition.now
            (option_copied clustering.entry)) result)) }
        ensures stands { StandsIn (K.files store.new) self.new }
        ensures same { self.new ≡ record self.old { pages = self.new.pages } }
        ensures files { K.files store.new ≡ K.files store.old }
        ensures reads { IfSome (K.files store.old) (λ m. IfSome self.old.footer (λ footer. OnOk result (IsBounded
            (bytes_in (columns_of self.old.schema) m self.old.generation) footer partition.now
            (option_copied clustering.entry) (K.reads store.old) (K.reads store.new)))) }
        ensures within { IfSome (K.files store.old) (λ m. IfSome self.old.footer (λ footer. IsAlwaysBounded
            (bytes_in (columns_of self.old.schema) m self.old.generation) footer partition.now
            (option_copied clustering.entry) (K.reads store.old) (K.reads store.new))) }
        ensures later { K.faults store.old ≤ K.faults store.new }
        ensures fault { result ≡ Err TableFault.StoreFault → Rose (K.faults store.old) (K.faults store.new) }
    {
        let Some(footer) = self.footer else {
            return Ok(None);
        };
        match value_of(
            self.alloc,
            &self.schema,
            &mut self.pages,
            store,
            self.generation,
            footer,
            partition,
            clustering,
        ) {
            Ok(value) => Ok(value),
            Err(e) => Err(TableFault::from(e)),
        }
    }
}
