ghost use Rattle.std.specs.Prelude.{◌≡◌, ◌++◌, ◌≤◌, codes, IfOk};
ghost use Rattle.std.specs.Fmt.{decimal};
ghost use Rattle.job_json.specs.Texts.{IsWellFormed};
ghost use Rattle.job_generator.specs.GeneratedJob.{generated_job, generated_name, generated_settings};

use crate::nodes::nodes;
use job_json::Job;
use plan_model::{Plan, Setting, Settings};
use row_core::{Bytes, NoMemory};
use std::alloc::Global;

/// The job for this many orders.
pub fn generated_job(alloc: Global, n: u32) -> Result<Job, NoMemory>
    requires { n ≤ 100000 }
    ensures job { IfOk result (λ job. job ≡ generated_job n) }
    ensures well_formed { IfOk result (λ job. IsWellFormed job) }
{
    Ok(Job {
        name: name(alloc, n)?,
        plan: Plan::from_vec(nodes(alloc)?),
        settings: settings(),
    })
}

fn name(alloc: Global, n: u32) -> Result<Bytes, NoMemory>
    ensures { IfOk result (λ name. name ≡ generated_name n) }
{
    let mut name = Bytes::from_slice(alloc, b"generated_")?;
    name.extend(n.to_string(alloc)?.as_bytes())?;
    Ok(name)
}

fn settings() -> Settings
    ensures { result ≡ generated_settings }
{
    let mut settings = Settings::defaults();
    settings.set(Setting::TargetBytes, 4096);
    settings.set(Setting::MaxParallelism, 8);
    settings.set(Setting::BroadcastBytes, 1024);
    settings.set(Setting::Attempts, 1);
    settings
}
