//! What the files of a table mean: their names, the text of Schema.txt, the map for which they stand, and the walk over Data.db.
//!
//! Writers and readers of files cite the definitions; the code here writes and reads Schema.txt, and asks whether files are there.
#![tactic(auto)]

mod error;
mod laws;
mod names;
mod schema_file;

pub use error::FileError;
pub use laws::{law_files_determine, law_indexes_stand, law_stands_walk};
pub use names::{any_there, data_id, partitions_id, rows_id, schema_id};
pub use schema_file::{read_schema, schema_file_text};
