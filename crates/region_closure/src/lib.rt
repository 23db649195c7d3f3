//! Which subtasks run again where parts are gone, in ascending order: over the vertices that were
//! made and the numbers of their subtasks, from the names of the parts to numbers, and from numbers
//! to the subtasks.
#![tactic(auto)]

mod awaited;
mod closure;
mod closure_law;
mod lost;
mod picked;

use awaited::awaited_numbers;
pub use closure::{closure_of, is_closure};
pub use closure_law::{closures_are_one, reruns_are_the_closure};
use lost::lost_numbers;
use picked::picked_subs;
