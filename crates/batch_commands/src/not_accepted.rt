ghost use Rattle.std.specs.Prelude.{◌≡◌};
ghost use Rattle.batch_commands.specs.Refusals.{plan_refusal, text_refusal};
ghost use Rattle.batch_commands.specs.declared.not_accepted.NotAccepted.TheVariants.{NoMemory};

use crate::RefusedKind;
use crate::job_refusal::JobRefusal;
use job_json::JobError;
use plan_model::PlanError;
use std::alloc::AllocError;

/// Why a text is of no accepted job.
#[derive(Debug, Drop)]
pub enum NotAccepted {
    Refused(JobRefusal),
    NoMemory,
}

impl From<JobError> for NotAccepted {
    ghost from_gives = { λ error refusal. refusal ≡ text_refusal error };

    fn from(error: JobError) -> Self {
        match error {
            JobError::Fault(fault) => NotAccepted::Refused(JobRefusal {
                kind: RefusedKind::Text(fault.kind),
                node: fault.node,
                name: fault.name,
            }),
            JobError::NoMemory => NotAccepted::NoMemory,
        }
    }
}

impl From<PlanError> for NotAccepted {
    ghost from_gives = { λ error refusal. refusal ≡ plan_refusal error };

    fn from(error: PlanError) -> Self {
        match error {
            PlanError::Fault(fault) => NotAccepted::Refused(JobRefusal {
                kind: RefusedKind::Plan(fault.kind),
                node: fault.node,
                name: None,
            }),
            PlanError::NoMemory => NotAccepted::NoMemory,
        }
    }
}

impl From<AllocError> for NotAccepted {
    ghost from_gives = { λ _ refusal. refusal ≡ NoMemory };

    fn from(_: AllocError) -> Self {
        NotAccepted::NoMemory
    }
}
