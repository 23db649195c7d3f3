//! What must hold of a job's log, parts and commit at every moment, and what follows from it: which
//! events a log says, which parts are true, and that a complete job's parts have the plan's text.
#![tactic(auto)]

mod soundness_laws;

pub use soundness_laws::{
    commits_stay_right, events_stay_right, logs_say_a_block_more, logs_say_one_list,
    parts_stay_right, parts_stay_true, rows_are_read, sinks_have_the_text,
};
