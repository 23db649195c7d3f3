//! The groups of an aggregate over the rows that a pipeline gives: an accumulator for each key and
//! aggregate, found by a hash of the key's bytes. No row is kept.
#![tactic(auto)]

mod accumulator;
mod groups;
mod key_bytes;
mod states;
mod written;

pub use groups::Groups;
pub use key_bytes::put_key;
