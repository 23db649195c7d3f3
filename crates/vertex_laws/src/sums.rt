ghost use Rattle.std.specs.Prelude.{◌≡◌, ◌<◌, ℕ, [], List, length};
ghost use Rattle.std.specs.List.{flat_map};
ghost use Rattle.row_core.specs.Bags.{SameBag};
ghost use Rattle.bag_laws.specs.Rows.{OneRow};
ghost use Rattle.plan_model.specs.Checks.{plan_faults};
ghost use Rattle.plan_model.specs.declared.node.Node.{Node};
ghost use Rattle.rect_cover.specs.Cells.{Reads, Input};
ghost use Rattle.rect_cover.specs.Covers.{IsCover};
ghost use Rattle.rect_cover.specs.Vertices.{readings, wholes};
ghost use Rattle.vertex_builder.specs.Vertices.{head_of, IsVertex};
ghost use Rattle.vertex_builder.specs.declared.vertex.Vertex.{Vertex};
ghost use Rattle.vertex_builder.specs.declared.widening.Widening.{Widening};
ghost use Rattle.vertex_laws.specs.Inputs.{AreShipped};
ghost use Rattle.vertex_laws.specs.VertexRows.{MayRepeat, vertex_rows, vertex_shape};

use rect_cover::{
    column_law, hash_columns, heads_go_by_bags, joins_are_heads, links_go_by_bags, vertex_law,
    vertices_go_by_bags,
};

/// The sum, over the subtasks of a cover of a vertex's shape, of what the vertex gives on what each
/// reads is what it gives on the whole inputs, whose rows stand where their ships want them. Of the
/// joins that are widened each must be of a kind that lets its build side be repeated.
pub fn vertices_are_sums()
    ensures { (nodes : List Node) (widened : List Widening) (max_parallelism : ℕ)
        (vertex : Vertex) (hash : OneRow → ℕ) (inputs : List Input) (subtasks : List Reads)
        → plan_faults nodes ≡ [] → MayRepeat nodes widened
        → IsVertex nodes widened max_parallelism vertex
        → head_of vertex < length nodes → AreShipped hash max_parallelism vertex inputs
        → IsCover (vertex_shape nodes vertex inputs) subtasks
        → SameBag
        (flat_map
        (λ subtask. vertex_rows nodes widened vertex (readings inputs 0 subtask)) subtasks)
        (vertex_rows nodes widened vertex (wholes inputs)) }
{
    vertex_law();
    vertices_go_by_bags();
    heads_go_by_bags();
    links_go_by_bags();
    joins_are_heads();
    hash_columns();
    column_law();
}
