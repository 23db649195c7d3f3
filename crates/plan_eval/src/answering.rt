ghost use Rattle.std.specs.Prelude.{◌≡◌, IfOk};
ghost use Rattle.plan_model.specs.Plans.{committed_text};
ghost use Rattle.plan_eval.specs.Tables.{files_of};

use crate::TableRows;
use crate::evaluation::Evaluation;
use plan_model::GoodPlan;
use row_core::{Bytes, NoMemory};
use std::alloc::Global;

/// The text that the plan commits over these tables: for each sink, in the order of the nodes, a line
/// with its name and its rows' lines in ascending order. Each node runs once, however many nodes
/// take its rows, and these are let go after the last of them. docs/FORMATS.md states the text.
pub fn answer(alloc: Global, plan: &GoodPlan, tables: &TableRows) -> Result<Bytes, NoMemory>
    ensures { IfOk result (λ text. text ≡ committed_text (files_of tables.now) plan.now) }
{
    let nodes = plan.nodes();
    let mut evaluation = Evaluation::new(alloc, nodes)?;
    for node in nodes {
        let output = evaluation.run(alloc, tables, node)?;
        evaluation.push(output)?;
    }
    Ok(evaluation.into_text())
}
