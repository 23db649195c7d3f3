ghost use Rattle.std.specs.Prelude.{◌≡◌, ◌<◌, ℕ, [], List, length};
ghost use Rattle.std.specs.List.{flat_map, AllZip};
ghost use Rattle.row_core.specs.Bags.{SameBag};
ghost use Rattle.bag_laws.specs.Rows.{OneRow};
ghost use Rattle.plan_model.specs.Checks.{plan_faults};
ghost use Rattle.plan_model.specs.Plans.{bag_at, bags_of};
ghost use Rattle.plan_model.specs.declared.node.Node.{Node};
ghost use Rattle.rect_cover.specs.Cells.{Reads, Input};
ghost use Rattle.rect_cover.specs.Covers.{IsCover};
ghost use Rattle.rect_cover.specs.Vertices.{readings, wholes};
ghost use Rattle.vertex_builder.specs.Vertices.{head_of, last_of, IsVertex};
ghost use Rattle.vertex_builder.specs.declared.vertex.Vertex.{Vertex};
ghost use Rattle.vertex_builder.specs.declared.widening.Widening.{Widening};
ghost use Rattle.vertex_laws.specs.Inputs.{AreShipped, HoldBags};
ghost use Rattle.vertex_laws.specs.VertexRows.{MayRepeat, vertex_rows, vertex_shape};

use crate::vertices_are_sums;

/// What a vertex gives on the plan's rows is the bag of its last node; so is the sum, over the
/// subtasks of a cover of its shape, of what it gives on what each reads.
pub fn vertices_give_bags()
    ensures whole { (files : List ℕ → List (List ℕ)) (nodes : List Node)
        (widened : List Widening) (max_parallelism : ℕ) (vertex : Vertex)
        (rows : List (List OneRow))
        → plan_faults nodes ≡ [] → IsVertex nodes widened max_parallelism vertex
        → head_of vertex < length nodes → HoldBags files nodes vertex rows
        → SameBag (vertex_rows nodes widened vertex rows)
        (bag_at (bags_of files nodes) (last_of vertex)).rows }
    ensures sum { (files : List ℕ → List (List ℕ)) (nodes : List Node)
        (widened : List Widening) (max_parallelism : ℕ) (vertex : Vertex)
        (hash : OneRow → ℕ) (inputs : List Input) (subtasks : List Reads)
        → plan_faults nodes ≡ [] → MayRepeat nodes widened
        → IsVertex nodes widened max_parallelism vertex
        → head_of vertex < length nodes → AreShipped hash max_parallelism vertex inputs
        → IsCover (vertex_shape nodes vertex inputs) subtasks
        → HoldBags files nodes vertex (wholes inputs)
        → SameBag
        (flat_map
        (λ subtask. vertex_rows nodes widened vertex (readings inputs 0 subtask)) subtasks)
        (bag_at (bags_of files nodes) (last_of vertex)).rows }
{
    vertices_are_sums();
}

/// What a vertex gives goes by the bags of what is read at its inputs.
pub fn vertex_rows_go_by_bags()
    ensures { (nodes : List Node) (widened : List Widening) (vertex : Vertex)
        (read others : List (List OneRow)) → AllZip SameBag read others
        → SameBag (vertex_rows nodes widened vertex read)
        (vertex_rows nodes widened vertex others) }
{}
