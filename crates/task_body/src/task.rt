ghost use Rattle.std.specs.Arc.{arc_value};
ghost use Rattle.std.specs.Prelude.{◌≡◌, ◌<◌, [], drop, length, map, take};
ghost use Rattle.plan_model.specs.Checks.{plan_faults};
ghost use Rattle.task_body.specs.Inputs.{width_into};
ghost use Rattle.task_body.specs.Once.{constants_once};
ghost use Rattle.task_body.specs.Plans.{ConstantsFitAt};
ghost use Rattle.vertex_builder.specs.Vertices.{head_of, IsVertex};
ghost use Rattle.vertex_laws.specs.VertexRows.{head_count, op_at};

use crate::TaskInput;
use estate::{Names, PartName};
use plan_model::{GoodPlan, Op};
use std::sync::Arc;
use vertex_builder::{Vertex, Widenings};

/// An attempt of a subtask: its name, the vertex whose chain it runs, what it reads at each input,
/// and the parts that it reads from. The plan is shared; nothing of it is copied for a task.
#[derive(Debug, Drop)]
pub struct Task {
    name: PartName,
    plan: Arc<GoodPlan>,
    widened: Widenings,
    max_parallelism: u32,
    vertex: Vertex,
    inputs: Vec<TaskInput>,
    named: Names,
    pub ghost faultless: { plan_faults (arc_value plan) ≡ [] },
    pub ghost is: { IsVertex (arc_value plan) widened max_parallelism vertex },
    pub ghost some: { 0 < max_parallelism },
    pub ghost within: { head_of vertex < length (arc_value plan) },
    pub ghost constants: { ConstantsFitAt (arc_value plan) vertex.nodes } by { constants_once (arc_value plan) vertex.nodes },
    pub ghost widths: { map (λ input. input.width) inputs.items
        ≡ map (width_into (arc_value plan)) vertex.inputs },
}

impl Task {
    /// The attempt of this name on a vertex of the plan, where these joins are widened and rows are
    /// cut into so many cells at most. Each input has the width of the node that it comes from, and
    /// of a source the number of its columns (`input_widths`).
    pub fn new(
        name: PartName,
        plan: Arc<GoodPlan>,
        widened: Widenings,
        max_parallelism: u32,
        vertex: Vertex,
        inputs: Vec<TaskInput>,
        named: Names,
    ) -> Self
        requires is { IsVertex (arc_value plan) widened max_parallelism vertex }
        requires some { 0 < max_parallelism }
        requires within { head_of vertex < length (arc_value plan) }
        requires constants { ConstantsFitAt (arc_value plan) vertex.nodes }
        requires widths { map (λ input. input.width) inputs.items
            ≡ map (width_into (arc_value plan)) vertex.inputs }
        ensures name { result.name ≡ name }
        ensures plan { arc_value result.plan ≡ arc_value plan }
        ensures widened { result.widened ≡ widened }
        ensures vertex { result.vertex ≡ vertex }
        ensures inputs { result.inputs.items ≡ inputs.items }
        ensures named { result.named ≡ named }
    {
        // an accepted plan has no fault
        let _without_a_fault = plan.nodes();
        Task {
            name,
            plan,
            widened,
            max_parallelism,
            vertex,
            inputs,
            named,
        }
    }

    pub fn name(&self) -> PartName
        ensures { result ≡ self.now.name }
    {
        self.name
    }

    /// The parts that it reads from.
    pub fn named(&self) -> &Names
        ensures { result.now ≡ self.now.named }
    {
        &self.named
    }

    pub fn plan(&self) -> &GoodPlan
        ensures { result.now ≡ arc_value self.now.plan }
    {
        &self.plan
    }

    pub fn widened(&self) -> &Widenings
        ensures { result.now ≡ self.now.widened }
    {
        &self.widened
    }

    pub fn vertex(&self) -> &Vertex
        ensures { result.now ≡ self.now.vertex }
    {
        &self.vertex
    }

    pub fn inputs(&self) -> &[TaskInput]
        ensures { result.now ≡ self.now.inputs.items }
    {
        self.inputs.as_slice()
    }

    /// The operator at the head of its chain.
    pub(crate) fn head_op(&self) -> &Op
        ensures { result.now ≡ op_at (arc_value self.now.plan) (head_of self.now.vertex) }
    {
        &self.plan.nodes()[self.vertex.head() as usize].op
    }

    /// The inputs of its head.
    pub(crate) fn head_inputs(&self) -> &[TaskInput]
        ensures { result.now
            ≡ take (head_count (arc_value self.now.plan) self.now.vertex) self.now.inputs.items }
    {
        let count = self.vertex.head_input_count();
        self.inputs.as_slice().split_at(count).0
    }

    /// The other inputs: the build sides of its widened joins, in the order of its chain.
    pub(crate) fn build_inputs(&self) -> &[TaskInput]
        ensures { result.now
            ≡ drop (head_count (arc_value self.now.plan) self.now.vertex) self.now.inputs.items }
    {
        let count = self.vertex.head_input_count();
        self.inputs.as_slice().split_at(count).1
    }
}
