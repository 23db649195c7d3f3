//! How many subtasks a join has, and what each of them reads: where no side is repeated, a skewed
//! column is split in pieces of one side's producers, each with all of the other side's column.
#![tactic(auto)]

mod columns;
mod deciding;
mod item;
mod joining;
mod rule;
mod sizes;

pub use deciding::{are_join, decide_join};
pub use item::Item;
pub use rule::Rule;
pub use sizes::Sizes;
