ghost use Rattle.std.specs.Prelude.{◌≡◌, IfOk};
ghost use Rattle.plan_text.specs.Planned.{plan_text};

use crate::lines::vertex_lines;
use crate::making::vertices_in_order;
use plan_model::GoodPlan;
use row_core::{Bytes, NoMemory};
use std::alloc::Global;

/// What `plan` prints of a plan: a line for each vertex, `vertex 2 nodes=3 in=1:hash,2:hash
/// out=4:hash`, in the order in which the vertices are made, if they complete one at a time in
/// that order, all that can be made are made before the next one completes, and no join is
/// widened. `nodes` is the chain from its head on. `in` has each producer with the way its rows
/// come, in order of the head's inputs, or `files` at a source. `out` has each consumer likewise,
/// in order of consumer and input, or `sink`.
pub fn plan_text(alloc: Global, plan: &GoodPlan) -> Result<Bytes, NoMemory>
    ensures { IfOk result (λ text. text ≡ plan_text plan.now) }
{
    let vertices = vertices_in_order(alloc, plan)?;
    vertex_lines(alloc, vertices.as_slice())
}
