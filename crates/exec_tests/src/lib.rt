//! Tests of the graph of a job that runs: lists of events, attempts, what is ready, and what runs
//! again where parts are lost.
#![tactic(auto)]

#[cfg(test)]
mod answer;
#[cfg(test)]
mod building;
#[cfg(test)]
mod exec_graph_tests;
#[cfg(test)]
mod jobs;
#[cfg(test)]
mod region_failover_tests;
#[cfg(test)]
mod step;
