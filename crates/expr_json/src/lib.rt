//! Expressions and tests as JSON, both ways. Each has one spelling: a list of its word and its
//! parts, as `["add",["col",0],["int",1]]`. `list_depth` and `has_bad_number` tell two faults of a
//! value from any other.
#![tactic(auto)]

mod bad_numbers;
mod comparison;
mod connective;
mod expr_reading;
mod expr_writing;
mod form;
mod leaf;
mod nesting;
mod operator;
mod spelling_laws;
mod test_reading;
mod test_writing;
mod text;

pub use bad_numbers::has_bad_number;
pub use expr_reading::read_expr;
pub use expr_writing::write_expr;
pub use nesting::list_depth;
pub use spelling_laws::{expr_laws, test_laws};
pub use test_reading::read_test;
pub use test_writing::write_test;
pub use text::write_text;
