//! What the plain reader finds damaged.

/// The first damage: the part of the table, the position in its file, and what is wrong there.
#[derive(Clone, Copy)]
pub struct Fault {
    pub part: &'static str,
    pub position: u64,
    pub cause: &'static str,
}
