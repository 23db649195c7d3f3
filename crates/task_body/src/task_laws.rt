ghost use Rattle.std.specs.Prelude.{ℕ, List};
ghost use Rattle.std.specs.List.{AllZip};
ghost use Rattle.bag_laws.specs.Rows.{OneRow};
ghost use Rattle.plan_model.specs.declared.node.Node.{Node};
ghost use Rattle.row_core.specs.Bags.{SameBag};
ghost use Rattle.task_parts.specs.Tasks.{TaskMay};
ghost use Rattle.vertex_builder.specs.declared.vertex.Vertex.{Vertex};
ghost use Rattle.vertex_builder.specs.declared.widening.Widening.{Widening};
ghost use Rattle.vertex_laws.specs.VertexRows.{vertex_rows};

use task_parts::tasks_go_by_bags;
use vertex_laws::vertex_rows_go_by_bags;

/// What a task may give goes by the bags of what is read at its inputs, so that cells with the same
/// rows may stand for one another.
pub fn tasks_go_by_inputs()
    ensures { (nodes : List Node) (widened : List Widening) (vertex : Vertex) (attempt : ℕ)
        (read others : List (List OneRow)) (part : ℕ → ℕ → List OneRow)
        → AllZip SameBag read others
        → TaskMay attempt vertex.outputs (vertex_rows nodes widened vertex read) part
        → TaskMay attempt vertex.outputs (vertex_rows nodes widened vertex others) part }
{
    tasks_go_by_bags();
    vertex_rows_go_by_bags();
}
