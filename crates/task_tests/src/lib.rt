//! Tests of what an attempt does.
#![tactic(auto)]

#[cfg(test)]
mod task_body_tests;
