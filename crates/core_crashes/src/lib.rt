//! What crashes may leave of the master's work: how its core stands to the images of its estate,
//! and how each write of a block, a part or a commit goes on from there.
#![tactic(auto)]

mod growth_laws;

pub use growth_laws::{first_parts_stay, holdings_grow_on};
