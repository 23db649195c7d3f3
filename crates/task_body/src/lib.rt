//! What an attempt does: it reads the cells of its inputs, runs the chain of its vertex on their
//! rows, and cuts what comes of them into the cells of each output. docs/SEMANTICS.md has the rules.
#![tactic(auto)]

mod batch;
mod chaining;
mod constants;
mod heading;
mod operating;
mod outputs;
mod ran;
mod reading;
mod running;
mod task;
mod task_cell;
mod task_input;
mod task_laws;
mod widths;

pub use constants::constants_fit;
pub use ran::Ran;
pub use running::run_task;
pub use task::Task;
pub use task_cell::TaskCell;
pub use task_input::TaskInput;
pub use task_laws::tasks_go_by_inputs;
pub use widths::input_widths;
