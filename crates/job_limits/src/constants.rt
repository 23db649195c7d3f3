ghost use Rattle.std.specs.Prelude.{All};
ghost use Rattle.job_json.specs.Texts.{IsWellFormed};
ghost use Rattle.job_json.specs.declared.job.Job.{Job as OneJob};
ghost use Rattle.operator_laws.specs.Texts.{ConstantsFit};

/// The constants that a job projects can be encoded: a text is no longer than the text that the job
/// is printed as.
pub fn constants_fit()
    ensures { (job : OneJob) → IsWellFormed job → All (λ node. ConstantsFit node.op) job.plan }
{}
