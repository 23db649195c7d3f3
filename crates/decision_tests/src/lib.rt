//! Tests of the crates that decide: how many subtasks there are and what each reads, which side of a
//! join is repeated, which slot is taken, which subtask is slow, which attempt wins.
#![tactic(auto)]

#[cfg(test)]
mod assignments;
#[cfg(test)]
mod join_rewrite_tests;
#[cfg(test)]
mod parallelism_decider_tests;
#[cfg(test)]
mod race_words_tests;
#[cfg(test)]
mod rect_cover_tests;
#[cfg(test)]
mod skew_splitter_tests;
#[cfg(test)]
mod slot_pool_tests;
#[cfg(test)]
mod slow_detector_tests;
#[cfg(test)]
mod volume_split_tests;
