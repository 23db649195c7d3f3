use job_json::JobFaultKind;
use plan_model::PlanKind;

/// Why a job is refused: by its text, or by its plan.
#[derive(Clone, Copy, Debug, PartialEq, Eq)]
pub enum RefusedKind {
    Text(JobFaultKind),
    Plan(PlanKind),
}
