//! The master as a definition: what it keeps between two steps, each kind of step, and which lists
//! of steps the rules allow.
#![tactic(auto)]

mod arrival;
mod run_laws;
mod step;
mod steps;

pub use arrival::Arrival;
pub use run_laws::{
    reopening_stays_right, runs_keep_work, runs_name_attempts_once, runs_stay_legal,
};
pub use step::Step;
pub use steps::Steps;
