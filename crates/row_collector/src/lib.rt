//! What takes the rows of a pipeline, one after another: cells of bytes, accumulators, a set. A row
//! is seen where it stands, so a collector keeps of it what it needs, and nothing else is kept.
#![tactic(auto)]

mod collector;

pub use collector::Collector;
