//! The operators on one input: filter, project, explode, union, aggregate and distinct.
//! docs/SEMANTICS.md says what each gives. Rows come in no promised order.
#![tactic(auto)]

mod accumulating;
mod accumulator;
mod aggregating;
mod by_row;
mod cells;
mod each_once;
mod exploding;
mod filtering;
mod first_places;
mod group;
mod grouping;
mod groups;
mod hashed_row;
mod hashing;
mod keyed;
mod keys;
mod merging;
mod merging_groups;
mod operators;
mod projecting;

pub use operators::apply;
