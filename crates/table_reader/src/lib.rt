//! Opening a table that was written, and reading it. The commands that answer from files stand on these calls, which
//! read the files of one generation through a cache of pages. Nothing here writes.
#![tactic(auto)]

mod block;
mod block_at;
mod fault;
mod get;
mod laws;
mod next;
mod partition;
mod place;
mod row_value;
mod scan;
mod seek;
mod table;
mod walker;
mod window;

pub use block::{Stop, find_row};
pub use fault::TableFault;
pub use laws::{
    law_begun_ranges, law_footers, law_get_reads, law_gets, law_next_reads, law_order, law_ranges,
    law_scan_reads, law_scans, law_whole_scan,
};
pub use scan::Scan;
pub use seek::{BoundString, Start};
pub use table::OpenTable;
pub use walker::{EntryStrings, static_part_behind};
pub use window::Window;

#[cfg(test)]
mod scan_tests;
#[cfg(test)]
mod tests;
