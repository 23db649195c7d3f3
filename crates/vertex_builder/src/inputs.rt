ghost use Rattle.std.specs.Prelude.{◌≡◌, ◌<◌, ℕ, [], List, length, IsTrue};
ghost use Rattle.plan_model.specs.Checks.{plan_faults};
ghost use Rattle.plan_model.specs.declared.node.Node.{Node};
ghost use Rattle.vertex_builder.specs.Edges.{is_head};
ghost use Rattle.vertex_builder.specs.Inputs.{InputsComeOut, IsApart, Stays};
ghost use Rattle.vertex_builder.specs.Vertices.{head_of, IsVertex};
ghost use Rattle.vertex_builder.specs.declared.vertex.Vertex.{Vertex};
ghost use Rattle.vertex_builder.specs.declared.widening.Widening.{Widening};

/// Each input of a vertex comes from the last node of another vertex, which is earlier than this
/// one's last node, and is one of its outputs, by the same ship and number of cells.
pub fn inputs_come_out()
    ensures { (nodes : List Node) (widened : List Widening) (max_parallelism : ℕ)
        (vertex : Vertex)
        → plan_faults nodes ≡ [] → IsVertex nodes widened max_parallelism vertex
        → IsTrue (is_head nodes widened (head_of vertex)) → head_of vertex < length nodes
        → InputsComeOut nodes widened max_parallelism vertex }
{}

/// A vertex stays one where a join is widened later, and its head a head, if neither the join nor
/// its probe side is in the vertex.
pub fn vertices_stay()
    ensures { (nodes : List Node) (widened : List Widening) (widening : Widening)
        (max_parallelism : ℕ) (vertex : Vertex)
        → IsVertex nodes widened max_parallelism vertex → IsApart nodes widening vertex
        → Stays nodes widened widening max_parallelism vertex }
{}
