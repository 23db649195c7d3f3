//! What the limit on a job's text gives. A law is the contract of a function with an empty body; a
//! proof of another crate cites it by its name in proofs/Laws.
#![tactic(auto)]

mod constants;

pub use constants::constants_fit;
