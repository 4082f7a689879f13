//! The index's nodes: their bytes, and what may be wrong with the bytes of a file.
#![tactic(auto)]

mod bits;
mod damage;
mod encode;
mod laws;
mod node;
mod outline;
mod parse;
mod payload;
mod table;
mod view;

pub use damage::{Cause, Damage, PackError};
pub use encode::{encode_node, encode_parts, node_size, node_weight};
pub use laws::{
    law_bounds, law_children, law_choice, law_packing, law_payloads, law_round_trip, law_size,
    law_vectors, law_weight,
};
pub use node::{Child, ChildList, NodeError, NodeParts, Payload};
pub use outline::{Outline, outline_of, outline_size, outline_weight};
pub use payload::{read_signed, read_unsigned, signed_payload, unsigned_payload};
pub use view::{NodeView, node_of, parse_node};

#[cfg(test)]
mod tests;
