//! Tests of the graph of subtasks: who reads from whom, what runs again, and of what it is kept in.
#![tactic(auto)]

#[cfg(test)]
mod attempt_names_tests;
#[cfg(test)]
mod bounds;
#[cfg(test)]
mod number_set_tests;
#[cfg(test)]
mod reader_index_tests;
#[cfg(test)]
mod rerun_set_tests;
#[cfg(test)]
mod tasks;
