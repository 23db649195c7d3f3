//! Sets of numbers below a bound, and of pairs of a group and a number. Taking one in or out takes
//! no memory; it and finding the first take as many steps as the bounds have binary digits.
#![tactic(auto)]

mod levels;
mod marks;
mod number_set;
mod pair;
mod pair_set;

use marks::Marks;
pub use number_set::NumberSet;
pub use pair::Pair;
pub use pair_set::PairSet;
