//! How many subtasks a vertex has whose head is no join, and what each of them reads: a share of
//! the producers or of the columns of its inputs, by their sizes in bytes.
#![tactic(auto)]

mod deciding;

pub use deciding::{decide, has_shape};
