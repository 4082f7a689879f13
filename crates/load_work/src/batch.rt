//! What a get of a batch is answered.

use trie_image::Rec;

/// What a get found: the record, or none, after the first `at` puts of its shard.
#[derive(Clone, Copy, PartialEq, Eq, Debug)]
pub struct Answer {
    pub line: u32,
    pub reader: u32,
    pub shard: u32,
    pub hit: Option<Rec>,
    pub at: u64,
}
