//! When a running thread may go on: a real program lets it at once, a test scripts it.
/// What is called before each put and each read of a batch.
pub trait Gate: Sync {
    fn before_put(&self, shard: u32, line: u32);

    fn before_read(&self, reader: u32, line: u32);
}

/// A gate that does nothing.
#[derive(Clone, Copy, Debug)]
pub struct OpenGate;

impl Gate for OpenGate {
    fn before_put(&self, _shard: u32, _line: u32) {}

    fn before_read(&self, _reader: u32, _line: u32) {}
}
