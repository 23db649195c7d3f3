//! The program's commands: `run` commits a job's rows, once, `look` shows what a job is, what it would
//! commit and what the log tells, and `serve` takes the words after the program's name to the one that they
//! are of. All of them stand on the traits of the outside; `batch_main` gives them the present folder.
#![tactic(auto)]

mod accepted_job;
mod answer;
mod commit_job;
mod events_text;
mod job_refusal;
mod job_text;
mod job_view;
mod lines;
mod listed_table;
mod log_refusal;
mod looking;
mod not_accepted;
mod orders;
mod outcome;
mod printing;
mod quantity;
mod refusal;
mod refused_kind;
mod running;
mod serving;
mod tables;
mod unbuilt;
mod view;
mod view_text;
mod word_refusal;

pub use answer::Answer;
pub use looking::look;
pub use outcome::Outcome;
pub use quantity::Quantity;
pub use refused_kind::RefusedKind;
pub use running::run;
pub use serving::serve;
pub use unbuilt::Unbuilt;
