//! Tests of a job's events: as bytes, as lines, and what a whole log comes to.
#![tactic(auto)]

#[cfg(test)]
mod event_codec_tests;
#[cfg(test)]
mod job_events_tests;
