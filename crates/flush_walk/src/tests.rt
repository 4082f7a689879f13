//! The worked row of an empty table.
ghost use Rattle.std.specs.Prelude.{◌≡◌};
ghost use Rattle.std.specs.FinMap as map;

use super::*;
use bti_nodes::PackError;
use data_file::Counts;
use key_types::{ColType, Schema, TypeList, ValueType};
use outside::{FileId, MemStore};
use std::alloc::{AllocError, Global};
use std::test::Fail as TestFail;
use table_files::{data_id, partitions_id, rows_id, schema_id};

/// The text of the schema.
const SCHEMA: [u8; 30] = *b"bti-table 1\n(int; ; text)\nend\n";

fn int_schema(alloc: Global) -> Result<Schema, AllocError> {
    let int = Box::new(alloc, ColType::Int)?;
    let end = Box::new(alloc, TypeList::End)?;
    Ok(Schema {
        partition: TypeList::More(int, end),
        clustering: TypeList::End,
        value: ValueType::Text,
        static_value: None,
    })
}

/// Writes a table without entries.
fn write_none(alloc: Global, schema: &Schema, store: &mut MemStore) -> Result<Counts, PackError>
    requires { store.old.files ≡ map.empty }
{
    let writer = TableWriter::new(alloc, schema, 1)?;
    writer.finish(store)
}

/// Whether the file is there and has these bytes.
fn has(store: &MemStore, file: FileId, bytes: &[u8]) -> bool {
    store.contents(file) == Some(bytes)
}

/// Row `empty-load`.
#[test]
fn no_entries_leave_four_files(rt: HostRuntime) -> Result<(), TestFail> {
    let alloc = rt.alloc();
    let schema = int_schema(alloc)?;
    let mut store = MemStore::new(alloc, Vec::new(alloc));
    let counts = Counts {
        partitions: 0,
        rows: 0,
    };
    assert_eq!(rt; write_none(alloc, &schema, &mut store), Ok(counts));
    assert!(rt; has(&store, data_id(1), &[]));
    assert!(rt; has(&store, rows_id(1), &[]));
    assert!(rt; has(&store, partitions_id(1), &[0u8; 28]));
    assert!(rt; has(&store, schema_id(1), &SCHEMA));
    Ok(())
}
