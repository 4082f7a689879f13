//! Pages of files that were read. The readers of indexes ask for pages here, so that a page which was used a short
//! while ago isn't read again. What a caller sees of a cache is the list of its pages, the last used first; each is
//! that page of its file.
#![tactic(auto)]

mod cache;
mod error;
mod key;

pub use cache::PageCache;
pub use error::ReadError;
pub use key::PageKey;

#[cfg(test)]
mod tests;
