//! A list of sizes in bytes is split into groups of neighbouring items: greedily, at a limit on the
//! sum of a group, or into a number of groups between two bounds. Where that number needs a greater
//! limit, the largest group is as small as can be.
#![tactic(auto)]

mod big_sizes;
mod choosing;
mod cutting;
mod group;
mod groups;
mod no_memory;

pub use big_sizes::BigSizes;
pub use choosing::choose;
pub use cutting::{count, cuts};
pub use group::Group;
pub use groups::Groups;
pub use no_memory::NoMemory;
