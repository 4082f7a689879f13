//! The first step of a check: Data.db from its start to its end. `check` calls it before all others, which compare the
//! indexes with what it finds.
ghost use Rattle.std.specs.Prelude.{◌≡◌, ◌≤◌, Err, IfOk, IfSome};
ghost use Rattle.outside.specs.Causes.{Rose};
ghost use Rattle.outside.specs.Files.{bytes_of};
ghost use Rattle.key_types.specs.Columns.{columns_of};
ghost use Rattle.data_file.specs.declared.reading.DataError.TheVariants.{StoreFault};
ghost use Rattle.table_files.specs.Names.{data_id};
ghost use Rattle.data_walk.specs.declared.refusal.Refusal.TheVariants.{Unread};
ghost use Rattle.partition_check.specs.Data.{first_with, FindsData};

use data_file::Counts;
use data_walk::{DataWalk, Refusal, data_size};
use key_types::{ByteList, KeyBytes, NoMemory, Schema};
use outside::Store;
use std::alloc::Global;
use table_files::data_id;

/// What Data.db was found to have: the first and the last partition's string, which are empty where it has no
/// partition, and how many partitions and rows.
#[derive(Drop)]
pub struct Found {
    pub first: KeyBytes,
    pub last: KeyBytes,
    pub counts: Counts,
}

/// Keeps the string of a partition as the first one, where none is kept: that of a partition has a byte.
fn keep_first(first: &mut KeyBytes, key: &[u8]) -> Result<(), NoMemory>
    ensures { IfOk result (λ _. first.new ≡ first_with first.old key.now) }
{
    if first.len() > 0 {
        return Ok(());
    }
    first.extend(key)
}

/// Goes through Data.db from its start to its end.
pub fn check_data<K: Store>(
    alloc: Global,
    schema: &Schema,
    store: &mut K,
    generation: u32,
) -> Result<Found, Refusal>
    ensures told { IfSome (K.files store.old) (λ m. FindsData (columns_of schema.now)
        (bytes_of m (data_id generation)) result) }
    ensures files { K.files store.new ≡ K.files store.old }
    ensures later { K.faults store.old ≤ K.faults store.new }
    ensures fault { result ≡ Err (Unread StoreFault) → Rose (K.faults store.old) (K.faults store.new) }
{
    let file = data_id(generation);
    let limit = data_size(store, generation)?;
    let mut walk = DataWalk::new(alloc, 0, limit);
    let mut first = ByteList::new(alloc);
    let mut counts = Counts {
        partitions: 0,
        rows: 0,
    };
    'partitions: while let Some(sum) = walk.next(schema, store, file)? {
        keep_first(&mut first, walk.key.as_slice())?;
        counts.partitions += 1;
        counts.rows += sum.rows;
    }
    Ok(Found {
        first,
        last: walk.key,
        counts,
    })
}
