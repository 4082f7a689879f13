//! What stands in the two index files beside their tries: the footer of the partition index, and the entries of the
//! row index. A table's readers call these with bytes that they have read, or with a store and the pages that they
//! hold of it; each says what begins there, or that nothing does.
#![tactic(auto)]

mod entry;
mod footer;
mod place;
mod reading;
mod span;

pub use entry::{EntryNumbers, EntryParts, entry_in};
pub use footer::{FooterNumbers, FooterParts, footer_in};
pub use place::{PartitionPlace, partition_place};
pub use reading::{read_entry, read_footer};
pub use span::{add_from_page, read_span};

#[cfg(test)]
mod tests;
