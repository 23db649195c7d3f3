ghost use Rattle.core_model.specs.Laws.{LegalLaw, OnceLaw, ReopenLaw, WorkLaw};

/// The events that a run of the master adds are legal.
pub fn runs_stay_legal()
    ensures { LegalLaw }
{}

/// A run of the master deploys no attempt of a finished subtask, unless it is reset before.
pub fn runs_keep_work()
    ensures { WorkLaw }
{}

/// What recovery appends to right events is right, where the job isn't over and no commit of it
/// stands.
pub fn reopening_stays_right()
    ensures { ReopenLaw }
{}

/// Each reset of a run has as gone the winners that were not held, where the shelf is told; and no
/// attempt is named twice.
pub fn runs_name_attempts_once()
    ensures { OnceLaw }
{}
