use plan_model::{Plan, Settings};
use row_core::Bytes;

/// A job: its name, which is also the id of its commit, its plan, and its settings.
#[derive(Debug, Drop)]
pub struct Job {
    pub name: Bytes,
    pub plan: Plan,
    pub settings: Settings,
}
