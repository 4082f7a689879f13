//! What the program meets outside: a source of bytes, a sink of bytes, a store of files, and a gate; and a counter of steps.
#![tactic(auto)]

mod adapters;
mod file_bytes;
mod folder_store;
mod gate;
mod mem_sink;
mod mem_source;
mod mem_store;
mod quiet;
mod script;
mod shelf;
mod steps;
mod store;
mod stream;

pub use adapters::{ReaderSource, WriterSink};
pub use folder_store::FolderStore;
pub use gate::{Gate, OpenGate};
pub use mem_sink::MemSink;
pub use mem_source::MemSource;
pub use mem_store::MemStore;
pub use quiet::{NullSink, QuietSource};
pub use script::Fail;
pub use steps::Steps;
pub use store::{FileId, PAGE, Part, Store};
pub use stream::{Failed, Sink, Source};

#[cfg(test)]
mod tests;
