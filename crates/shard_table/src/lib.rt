//! The shards of a table: each has the partitions between two bounds, cells of its own, and the seats of its writer and
//! its readers. Whoever runs batches holds a table and its workers; in the end it is closed, and its shards are listed.
#![tactic(auto)]

ghost use Rattle.shard_table.specs.Shards.{LawShardOf};
ghost use Rattle.shard_table.specs.Together.{LawShardsList};

mod bounds;
mod cursor;
mod frozen;
mod table;
mod values;
mod workers;

pub use bounds::KeyList;
pub use cursor::TableCursor;
pub use frozen::FrozenTable;
pub use table::{ShardTable, TableError};
pub use workers::Workers;

/// Where bounds ascend, a string isn't below the bound before its shard, and is below the bound after it.
pub fn law_shard_of()
    ensures { LawShardOf }
{}

/// The shards' entries, one shard's behind another's, are those of the sorted map of all puts, where each shard has
/// those that go to it.
pub fn law_shards_list()
    ensures { LawShardsList }
{}

#[cfg(test)]
mod tests;
