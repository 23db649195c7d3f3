ghost use Rattle.job_events.specs.Folded.{FoldLaw};

/// The events of a job that is started have a fold, its start aside.
pub fn started_jobs_fold()
    ensures { FoldLaw }
{}
