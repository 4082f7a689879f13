//! Searches in the tries of index files, page by page through a cache. The readers of a table call them, and its
//! checker walks through all paths. Each answers what the definition of the search says of the file's bytes; where a
//! node that it asks for doesn't begin, it names the first such place.
#![tactic(auto)]

mod ask;
mod laws;
mod nearest;
mod paths;
mod walk;
mod way;

pub use ask::Hit;
pub use laws::{law_order, law_searches, law_vectors, law_walk};
pub use nearest::{before, ceiling, floor};
pub use paths::exact;
pub use walk::Walk;
pub use way::PathHit;

#[cfg(test)]
mod tests;
