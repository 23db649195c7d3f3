//! The reader of a job's text, and its printer.
ghost use Rattle.std.specs.Prelude.{◌≡◌, IfOk, IsTrue, Ok, Option, None, Some};
ghost use Rattle.std.specs.List.{list_all};
ghost use Rattle.serde_json.specs.View.{view};
ghost use Rattle.job_json.specs.Faults.{Gives, or_fault, not_json};
ghost use Rattle.job_json.specs.Jobs.{job_of};
ghost use Rattle.job_json.specs.Texts.{json_of, not_too_large, if_printable, job_in, printed_text, IsWellFormed};
ghost use Rattle.job_json.specs.WellFormed.{has_utf8_texts_in, IsJobForm};

use crate::job_settings::read_settings;
use crate::job_writing::write_text;
use crate::node_reader::NodeReader;
use crate::nodes::read_nodes;
use crate::object::Object;
use crate::{Job, JobError, JobFault, JobFaultKind};
use plan_model::Plan;
use row_core::{Bytes, NoMemory};
use serde_json::Value;
use std::alloc::Global;

/// The greatest size of a job's text, in bytes, as it comes and as it is printed.
pub const TEXT_LIMIT: usize = 1_048_576;

/// The greatest number of nodes.
pub const NODE_LIMIT: usize = 256;

/// The job that a text is, or its first fault; docs/FORMATS.md has the form, and the order in which
/// faults are looked for.
#[tactic(auto, unfolding(crate::specs::Texts::job_in))]
pub fn read_job(alloc: Global, bytes: &Bytes) -> Result<Job, JobError>
    ensures gives { Gives (λ job. job) result (job_in bytes.now) }
    ensures well_formed { IfOk result (λ job. IsWellFormed job) }
{
    let reader = NodeReader { alloc, node: None };
    check_size(reader, "bytes", bytes.len())?;
    let value = parse(alloc, bytes)?;
    let job = read_value(reader, &value)?;
    if_within_limit(reader, job)
}

/// The text of a job, compact, with members in byte order and with all settings.
#[tactic(auto, using(crate::proofs::RoundTrip::reads_back))]
pub fn print_job(alloc: Global, job: &Job) -> Result<Bytes, NoMemory>
    requires { IsWellFormed job.now }
    ensures text { IfOk result (λ text. text ≡ printed_text job.now) }
    // Its reader gives the same job.
    ensures reads_back { IfOk result (λ text. job_in text ≡ Ok job.now) }
{
    write_text(alloc, job)
}

fn check_size(reader: NodeReader, name: &str, bytes: usize) -> Result<(), JobError>
    requires { reader.node ≡ None }
    ensures { Gives (λ _. tt) result (not_too_large name.now bytes) }
{
    if bytes > TEXT_LIMIT {
        return Err(reader.fault(JobFaultKind::TooMany(bytes as u64), name));
    }
    Ok(())
}

#[tactic(auto, using(crate::proofs::ParsedTexts::parsed, crate::proofs::ParsedTexts::not_parsed))]
fn parse(alloc: Global, bytes: &Bytes) -> Result<Value, JobError>
    ensures { Gives view result (or_fault not_json (json_of bytes.now)) }
{
    match Value::from_slice(alloc, bytes.as_slice()) {
        Ok(value) => Ok(value),
        Err(e) if e.is_memory() => Err(JobError::NoMemory),
        Err(_) => Err(no_json()),
    }
}

fn no_json() -> JobError
    ensures { result ≡ JobError.Fault not_json }
{
    JobError::Fault(JobFault {
        kind: JobFaultKind::NotJson,
        node: None,
        name: None,
    })
}

#[tactic(auto, unfolding(crate::specs::Jobs::job_of))]
fn read_value(reader: NodeReader, value: &Value) -> Result<Job, JobError>
    requires { reader.node ≡ None }
    ensures gives { Gives (λ job. job) result (job_of (view value.now)) }
    ensures texts { IfOk result (λ job. IsTrue (list_all has_utf8_texts_in job.plan)) }
{
    let Some(members) = value.as_object() else {
        return Err(no_json());
    };
    let name = reader.name(value, "job")?;
    let items = reader.list(value, "nodes")?;
    let settings = read_settings(reader, value)?;
    reader.check_known(Object::Top, members)?;
    if items.len() > NODE_LIMIT {
        return Err(reader.fault(JobFaultKind::TooMany(items.len() as u64), "nodes"));
    }
    let nodes = read_nodes(reader.alloc, items)?;
    Ok(Job {
        name,
        plan: Plan::from_vec(nodes),
        settings,
    })
}

// The job, unless its printed text is too large.
fn if_within_limit(reader: NodeReader, job: Job) -> Result<Job, JobError>
    requires place { reader.node ≡ None }
    requires form { IsJobForm job }
    ensures gives { Gives (λ job. job) result (if_printable job) }
    ensures well_formed { IfOk result (λ job. IsWellFormed job) }
{
    let text = write_text(reader.alloc, &job)?;
    check_size(reader, "printed", text.len())?;
    Ok(job)
}
