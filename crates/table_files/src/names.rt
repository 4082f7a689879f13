//! The files of a generation by their names, and whether one of them is there.
//!
//! A table has the generations 1 to 32. Nothing here knows which of them a command means.
ghost use Rattle.std.specs.Prelude.{◌≡◌, ◌≤◌, OnErr};
ghost use Rattle.outside.specs.Causes.{Rose};
ghost use Rattle.table_files.specs.Names.{data_id, partitions_id, rows_id, schema_id};
ghost use Rattle.table_files.specs.There.{Tells, any_there, file_there};

use outside::{Failed, FileId, Part, Store};

/// The file of a generation's partitions and rows.
pub fn data_id(generation: u32) -> FileId
    ensures { result ≡ data_id generation }
{
    FileId {
        generation,
        part: Part::Data,
    }
}

/// The index of a generation's partitions.
pub fn partitions_id(generation: u32) -> FileId
    ensures { result ≡ partitions_id generation }
{
    FileId {
        generation,
        part: Part::Partitions,
    }
}

/// The index of a generation's rows.
pub fn rows_id(generation: u32) -> FileId
    ensures { result ≡ rows_id generation }
{
    FileId {
        generation,
        part: Part::Rows,
    }
}

/// The file of a generation's schema, which is written last.
pub fn schema_id(generation: u32) -> FileId
    ensures { result ≡ schema_id generation }
{
    FileId {
        generation,
        part: Part::Schema,
    }
}

/// Whether the file is there.
fn file_there<K: Store>(store: &mut K, file: FileId) -> Result<bool, Failed>
    ensures told { Tells (λ old. file_there old file) (K.files store.old) result }
    ensures files { K.files store.new ≡ K.files store.old }
    ensures later { K.faults store.old ≤ K.faults store.new }
    ensures fault { OnErr result (Rose (K.faults store.old) (K.faults store.new)) }
{
    match store.size(file)? {
        Some(_) => Ok(true),
        None => Ok(false),
    }
}

/// Whether one of the generation's four files is there.
pub fn any_there<K: Store>(store: &mut K, generation: u32) -> Result<bool, Failed>
    ensures told { Tells (any_there generation) (K.files store.old) result }
    ensures files { K.files store.new ≡ K.files store.old }
    ensures later { K.faults store.old ≤ K.faults store.new }
    ensures fault { OnErr result (Rose (K.faults store.old) (K.faults store.new)) }
{
    if file_there(store, data_id(generation))? || file_there(store, partitions_id(generation))? {
        return Ok(true);
    }
    Ok(file_there(store, rows_id(generation))? || file_there(store, schema_id(generation))?)
}
