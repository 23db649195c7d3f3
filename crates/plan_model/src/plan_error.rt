use crate::PlanFault;
use std::alloc::AllocError;

/// Why a plan is refused.
#[derive(Clone, Copy, Debug, PartialEq, Eq)]
pub enum PlanError {
    Fault(PlanFault),
    NoMemory,
}

impl From<AllocError> for PlanError {
    ghost use Rattle.std.specs.Prelude.{◌≡◌};
    ghost use Rattle.plan_model.specs.declared.plan_error.PlanError.TheVariants.{NoMemory};

    ghost from_gives = { λ _ e. e ≡ NoMemory };

    fn from(_e: AllocError) -> PlanError {
        PlanError::NoMemory
    }
}
