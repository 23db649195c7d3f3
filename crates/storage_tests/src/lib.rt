//! Tests of the estate in memory and of what stands on it: the log, the parts of the shelf, the commit.
#![tactic(auto)]

#[cfg(test)]
mod estate_tests;
#[cfg(test)]
mod event_log_tests;
#[cfg(test)]
mod part_store_tests;
#[cfg(test)]
mod sink_commit_tests;
