//! The generation that the words of today's commands mean.

/// The generation of which `load` writes the files and `scan` reads them.
pub const FIRST_GENERATION: u32 = 1;
