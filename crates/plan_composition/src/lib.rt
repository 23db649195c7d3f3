//! An execution that is done computes the plan: from legal events, of which each part is one that
//! its task may give of the parts that it read, the winners of each sink have the plan's bag.
#![tactic(auto)]

mod results;

pub use results::{sinks_have_bags, sinks_have_the_text, vertices_have_bags, winners_are_true};
