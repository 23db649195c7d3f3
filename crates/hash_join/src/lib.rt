//! Joins by hash. The rows of the build side are kept by their keys; each row of the other side, the
//! probe side, goes with its matches through the steps of a pipeline to a collector.
#![tactic(auto)]

mod build_rows;
mod build_table;
mod columns;
mod join_laws;
mod joining;
mod pairing;
mod probing;
mod pushing;
mod rules;

pub use build_rows::BuildRows;
pub use build_table::BuildTable;
pub use columns::key_columns;
pub use join_laws::joins_go_by_probes;
pub use joining::Joiner;
pub use probing::Probe;
pub use rules::Rule;
