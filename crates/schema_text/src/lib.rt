//! Texts of schemas: what `read_schema` takes, and the one text that is written of each schema.
#![tactic(auto)]

mod bounds;
mod laws;
mod reading;
#[cfg(test)]
mod tests;
mod types;
mod values;
mod writing;

pub use laws::law_schema_texts;
pub use reading::{SchemaError, read_canonical, read_schema};
pub use writing::write_schema;
