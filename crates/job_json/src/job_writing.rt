//! A job as a JSON value, and as a text.
ghost use Rattle.std.specs.Prelude.{◌≡◌, map, IfOk, Some, IsUtf8};
ghost use Rattle.serde_json.specs.Data.{no_members};
ghost use Rattle.serde_json.specs.Read.{read};
ghost use Rattle.serde_json.specs.View.{view, members_view};
ghost use Rattle.job_json.specs.Spelling.{puts, setting_member, settings_value, job_value};
ghost use Rattle.job_json.specs.Texts.{printed_text};
ghost use Rattle.job_json.specs.WellFormed.{IsJobForm};

use crate::Job;
use crate::names::write_name;
use crate::node_writing::write_nodes;
use plan_model::{SETTINGS, Setting, Settings};
use row_core::{Bytes, NoMemory};
use serde_json::{Map, Value, put};
use std::alloc::Global;

/// The text of a job, however long it is.
#[tactic(auto, using(crate::proofs::PlainValues::plain_job, crate::proofs::PlainValues::job_nests))]
pub fn write_text(alloc: Global, job: &Job) -> Result<Bytes, NoMemory>
    requires { IsJobForm job.now }
    ensures text { IfOk result (λ text. text ≡ printed_text job.now) }
    ensures utf8 { IfOk result (λ text. IsUtf8 text) }
    ensures reads_back { IfOk result (λ text. read text ≡ Some (job_value job.now)) }
{
    let value = write_job(alloc, job)?;
    Ok(Bytes::from_vec(value.to_vec(alloc)?))
}

#[tactic(auto, unfolding(crate::specs::Spelling::job_value))]
fn write_job(alloc: Global, job: &Job) -> Result<Value, NoMemory>
    requires { IsJobForm job.now }
    ensures { IfOk result (λ value. view value ≡ job_value job.now) }
{
    let mut members = Map::new(alloc);
    put(&mut members, alloc, "job", write_name(alloc, &job.name)?)?;
    put(
        &mut members,
        alloc,
        "nodes",
        write_nodes(alloc, job.plan.as_slice())?,
    )?;
    put(
        &mut members,
        alloc,
        "settings",
        write_settings(alloc, &job.settings)?,
    )?;
    Ok(Value::Object(members))
}

fn write_settings(alloc: Global, settings: &Settings) -> Result<Value, NoMemory>
    ensures { IfOk result (λ value. view value ≡ settings_value settings.now) }
{
    let members = write_each(alloc, settings, SETTINGS.as_slice())?;
    Ok(Value::Object(members))
}

fn write_each(
    alloc: Global,
    settings: &Settings,
    list: &[Setting],
) -> Result<Map<String, Value>, NoMemory>
    ensures { IfOk result (λ members. members_view members.entries
        ≡ puts (map (setting_member settings.now) list.now) no_members) }
{
    let mut members = Map::new(alloc);
    for setting in list {
        put(
            &mut members,
            alloc,
            setting.name(),
            Value::from(settings.get(*setting)),
        )?;
    }
    Ok(members)
}
