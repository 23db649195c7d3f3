//! Which tasks run again where results of some are gone: the least set of tasks that has each whose
//! result is gone and still wanted, and with a task each of its readers that was done. It is found
//! by a search along readers and producers.
#![tactic(auto)]

mod closing;
mod task_set;

pub use closing::reruns;
use task_set::TaskSet;
