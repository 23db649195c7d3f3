ghost use Rattle.std.specs.Prelude.{◌≡◌, length};
ghost use Rattle.event_codec.specs.Spelling.{IsShort};
ghost use Rattle.graph_model.specs.declared.event.Event.TheVariants.{Started};
ghost use Rattle.job_events.specs.Logs.{IsAccepted};
ghost use Rattle.plan_model.specs.TableNames.{tables_of};
ghost use Rattle.recover_core.specs.Jobs.{CanStart, job_of};

use graph_model::FileSizes;
use plan_model::{GoodPlan, Settings};
use row_core::Bytes;
use std::marker::Model;

/// A job as its log has it: its name, which is the id of its commit, its text, what the text says,
/// and the sizes of its tables' files in bytes.
#[derive(Debug, Drop)]
pub struct StartedJob {
    name: Bytes,
    text: Bytes,
    plan: GoodPlan,
    settings: Settings,
    files: FileSizes,
}

impl Model for StartedJob {
    ghost use Rattle.job_soundness.specs.Jobs.{Job};
    ghost use Rattle.recover_core.specs.Jobs.{CanStart};
    ghost use Rattle.row_core.specs.contracts.expr.Expr as expr;
    ghost use Rattle.row_core.specs.contracts.pred.Pred as pred;
    ghost use Rattle.std.specs.Coded.{codes};

    ghost Value = { Job };

    ghost view = { λ j. record {
      id = j.name;
      text = j.text;
      given = record { nodes = j.plan; settings = j.settings; files = j.files };
    } };

    ghost invariant = { λ j. CanStart (record {
      id = j.name;
      text = j.text;
      given = record { nodes = j.plan; settings = j.settings; files = j.files };
    }) };

    ghost coded = { Prim.hlevel (codes, expr.the_row.coded, pred.the_row.coded) };
}

impl StartedJob {
    /// The job of a text, over files of these sizes: one list for each table of the plan.
    pub fn new(
        name: Bytes,
        text: Bytes,
        plan: GoodPlan,
        settings: Settings,
        files: FileSizes,
    ) -> Self
        requires accepted { IsAccepted text
            (record { name = name; plan = plan; settings = settings }) }
        requires tables { length files ≡ length (tables_of plan) }
        requires short { IsShort (Started text files) }
        ensures { result ≡ job_of name text plan settings files }
    {
        StartedJob {
            name,
            text,
            plan,
            settings,
            files,
        }
    }

    /// For proofs: a log can start with the job.
    pub fn can_start(&self)
        ensures { CanStart self.now }
    {
        let _ = &self.text;
    }

    /// The id of the job's commit.
    pub fn id(&self) -> &Bytes
        ensures { result.now ≡ self.now.id }
    {
        &self.name
    }

    pub fn text(&self) -> &Bytes
        ensures { result.now ≡ self.now.text }
    {
        &self.text
    }

    pub fn plan(&self) -> &GoodPlan
        ensures { result.now ≡ self.now.given.nodes }
    {
        &self.plan
    }

    pub fn settings(&self) -> &Settings
        ensures { result.now ≡ self.now.given.settings }
    {
        &self.settings
    }

    pub fn files(&self) -> &FileSizes
        ensures { result.now ≡ self.now.given.files }
    {
        &self.files
    }
}
