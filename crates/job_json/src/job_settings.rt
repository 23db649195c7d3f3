//! The settings of a job's text.
ghost use Rattle.std.specs.Prelude.{◌≡◌};
ghost use Rattle.serde_json.specs.View.{view, members_view};
ghost use Rattle.plan_model.specs.Settings.{default_values};
ghost use Rattle.job_json.specs.Faults.{Gives};
ghost use Rattle.job_json.specs.Jobs.{with_setting, settings_from, settings_of};

use crate::node_reader::NodeReader;
use crate::{JobError, JobFaultKind};
use plan_model::{Setting, Settings};
use serde_json::{Map, Value};

/// The settings of a job; the defaults where it has none.
#[tactic(auto, unfolding(crate::specs::Jobs::settings_of))]
pub fn read_settings(reader: NodeReader, job: &Value) -> Result<Settings, JobError>
    requires { reader.node ≡ None }
    ensures { Gives (λ x. x) result (settings_of (view job.now)) }
{
    let Some(value) = job.get("settings") else {
        return Ok(Settings::defaults());
    };
    let Some(members) = value.as_object() else {
        return Err(reader.fault(JobFaultKind::BadMember, "settings"));
    };
    settings_from(reader, members)
}

fn settings_from(reader: NodeReader, members: &Map<String, Value>) -> Result<Settings, JobError>
    requires { reader.node ≡ None }
    ensures { Gives
        (λ x. x) result (settings_from default_values (members_view members.now.entries)) }
{
    let mut settings = Settings::defaults();
    for (name, value) in members.iter() {
        settings = with_setting(reader, settings, name.as_str(), value)?;
    }
    Ok(settings)
}

#[tactic(auto, unfolding(crate::specs::Jobs::with_setting))]
fn with_setting(
    reader: NodeReader,
    mut settings: Settings,
    name: &str,
    value: &Value,
) -> Result<Settings, JobError>
    requires { reader.node ≡ None }
    ensures { Gives (λ x. x) result (with_setting settings name.now (view value.now)) }
{
    let Some(setting) = Setting::named(name.as_bytes()) else {
        return Err(reader.fault(JobFaultKind::UnknownMember, name));
    };
    let Some(number) = value.as_number() else {
        return Err(reader.fault(JobFaultKind::BadMember, name));
    };
    let Some(number) = number.as_u64() else {
        return Err(reader.fault(JobFaultKind::BadNumber, name));
    };
    if !settings.set(setting, number) {
        return Err(reader.fault(JobFaultKind::BadNumber, name));
    }
    Ok(settings)
}
