//! The texts that the commands `check` and `plan` print of a plan that was accepted: how large it
//! is, and its vertices in the order in which they are made.
//!
//! `check` prints one line, `ok nodes=6 sinks=1`. `plan` prints a line for each vertex:
//! `vertex 2 nodes=3 in=1:hash,2:hash out=4:hash`.
#![tactic(auto)]

mod checked;
mod laws;
mod lines;
mod making;
mod parts;
mod planned;

pub use checked::check_text;
pub use laws::{each_head_is_made, each_node_is_shown, inputs_come_before};
pub use planned::plan_text;
