//! Tries in pages: ascending keys with payloads, laid so that each small subtree lies in one page.
#![tactic(auto)]

mod append;
mod boxes;
mod edge;
mod grow;
mod laws;
mod lay;
mod pack;
mod packer;
mod work;

pub use laws::{
    law_early, law_early_grows, law_edge, law_frontier_closes, law_frontier_grows,
    law_layout_means, law_length, law_packing_ends, law_page_node, law_page_subtree, law_parts,
    law_spans, law_tree, law_vectors, law_weight_grows,
};
pub use packer::{Packed, Packer};

#[cfg(test)]
mod tests;
