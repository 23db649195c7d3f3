//! The text of a job, both ways: what is accepted, the first fault of what isn't, and the text that
//! a job is printed as.
#![tactic(auto)]

mod aggs;
mod columns;
mod exprs;
mod job;
mod job_error;
mod job_fault;
mod job_fault_kind;
mod job_settings;
mod job_writing;
mod json_shape;
mod names;
mod node_reader;
mod node_writing;
mod nodes;
mod numbers;
mod object;
mod op_kind;
mod part_writing;
mod reading;
mod words;

pub use job::Job;
pub use job_error::JobError;
pub use job_fault::JobFault;
pub use job_fault_kind::JobFaultKind;
pub use reading::{print_job, read_job};
