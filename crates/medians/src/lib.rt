//! The median of numbers: of running times, where a subtask is looked for that is slow, and of the
//! sizes of columns, where one is looked for that is skewed.
#![tactic(auto)]

mod middle;

pub use middle::median;
