ghost use Rattle.std.specs.Prelude.{◌≡◌, ◌<◌, ◌↔◌, IfOk, IsTrue, length};
ghost use Rattle.std.specs.List.{AllZip};
ghost use Rattle.graph_model.specs.Legal.{IsNamed};
ghost use Rattle.graph_model.specs.Reads.{read_edges};
ghost use Rattle.graph_model.specs.States.{subtasks_at};
ghost use Rattle.event_graph.specs.Numbers.{IsNumbering, is_fed};

use crate::{Numbers, are_winners, winners_of};
use estate::{Names, PartName};
use graph_model::Sub;
use graph_vertices::MadeVertices;
use row_core::NoMemory;
use std::alloc::Global;

/// Whether these are the present winners' parts that a subtask reads, in their order.
pub fn reads_parts(vertices: &MadeVertices, numbers: &Numbers, sub: Sub, names: &[PartName]) -> bool
    requires numbering { IsNumbering vertices.now numbers.now }
    requires decided { sub.subtask < length (subtasks_at vertices.now sub.vertex) }
    ensures { IsTrue result ↔ AllZip (IsNamed vertices.now)
        (read_edges vertices.now sub) names.now }
{
    let task = numbers.number(sub);
    let reads = numbers.reads_of(task);
    are_winners(vertices, numbers.subs(), reads, names)
}

/// The present winners' parts that a subtask reads, in their order.
pub fn parts_read(
    alloc: Global,
    vertices: &MadeVertices,
    numbers: &Numbers,
    sub: Sub,
) -> Result<Names, NoMemory>
    requires numbering { IsNumbering vertices.now numbers.now }
    requires decided { sub.subtask < length (subtasks_at vertices.now sub.vertex) }
    requires fed { IsTrue (is_fed vertices.now sub) }
    ensures { IfOk result (λ names. AllZip (IsNamed vertices.now)
        (read_edges vertices.now sub) names) }
{
    let task = numbers.number(sub);
    let reads = numbers.reads_of(task);
    winners_of(alloc, vertices, numbers.subs(), reads)
}

/// Whether what a subtask reads from has winners. It costs the same for every subtask.
pub fn is_fed(vertices: &MadeVertices, numbers: &Numbers, sub: Sub) -> bool
    requires numbering { IsNumbering vertices.now numbers.now }
    requires decided { sub.subtask < length (subtasks_at vertices.now sub.vertex) }
    ensures { result ≡ is_fed vertices.now sub }
{
    let _ = vertices;
    let task = numbers.number(sub);
    numbers.missing(task) == 0
}
