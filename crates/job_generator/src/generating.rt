ghost use Rattle.std.specs.Prelude.{◌≡◌, ◌≤◌, IfOk};
ghost use Rattle.job_json.specs.Texts.{printed_text};
ghost use Rattle.job_generator.specs.GeneratedJob.{generated_job, IsAccepted};
ghost use Rattle.job_generator.specs.GeneratedTables.{generated_tables};

use crate::job::generated_job;
use crate::tables::generated_tables;
use estate::Tables;
use job_json::print_job;
use row_core::{Bytes, NoMemory};
use std::alloc::Global;

/// The text of the generated job with this many orders, and its tables; docs/FORMATS.md has both.
#[tactic(auto, using(crate::proofs::Printed::faultless))]
pub fn generate(alloc: Global, n: u32) -> Result<(Bytes, Tables), NoMemory>
    requires least { 1 ≤ n }
    requires most { n ≤ 100000 }
    ensures text { IfOk result (λ made. made.0 ≡ printed_text (generated_job n)) }
    // Both its reader and the check of its plan take it.
    ensures accepted { IfOk result (λ made. IsAccepted made.0 (generated_job n)) }
    ensures tables { IfOk result (λ made. made.1 ≡ generated_tables n) }
{
    let job = generated_job(alloc, n)?;
    Ok((print_job(alloc, &job)?, generated_tables(alloc, n)?))
}
