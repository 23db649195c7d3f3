ghost use Rattle.std.specs.Prelude.{IfOk};
ghost use Rattle.graph_model.specs.Closures.{IsClosure};

use estate::Names;
use exec_graph::Graph;
use graph_model::Subs;
use row_core::NoMemory;
use std::alloc::Global;

/// The subtasks that run again where these parts are gone, in ascending order: each whose winner's
/// part is gone and still wanted, and each finished one that reads from one that runs again. It
/// costs a look at each part, as much as those that are gone or run again have readers and
/// producers, and a sort of those that run again. No other subtask is looked at.
pub fn closure(alloc: Global, graph: &Graph, gone: &Names) -> Result<Subs, NoMemory>
    ensures { IfOk result (λ set. IsClosure graph.now.job.state.vertices gone.now set) }
{
    graph.job().closure(alloc, gone)
}
