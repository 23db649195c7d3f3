//! Tests of the estate of real files, each in a folder of its own.
#![tactic(auto)]

#[cfg(test)]
mod estate_files_tests;
