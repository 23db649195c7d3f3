//! The joins of two inputs: inner, left, right, full, semi and anti. docs/SEMANTICS.md says what each
//! gives. Rows come in no promised order. `probe.rt` is the join itself.
#![tactic(auto)]

mod cells;
mod emitting;
mod joining;
mod key_prefix;
mod keyed;
mod probe;
mod row_parts;
mod rule;
mod searching;
mod sorted_side;

pub use joining::join;
