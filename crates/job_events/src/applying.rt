ghost use Rattle.std.specs.Prelude.{◌≡◌, IfErr, OnErr, OnOk};
ghost use Rattle.event_graph.specs.Graphs.{Takes};
ghost use Rattle.graph_model.specs.declared.event.Event.TheVariants.{Done};
ghost use Rattle.job_events.specs.Applied.{IsWhyNot};

use estate::{EdgeSizes, Names, PartName};
use exec_graph::{Event, Graph, GraphError, Verdict};

/// Takes an event, where it is legal; docs/SEMANTICS.md says which events are. A job that has a
/// graph is started, so `Started` is never legal. A call that answers an error changes nothing.
pub fn apply(graph: &mut Graph, event: &Event) -> Result<(), GraphError>
    ensures ok { OnOk result (Takes graph.old.job event.now graph.new.job) }
    ensures same { OnErr result (graph.new.job ≡ graph.old.job) }
    ensures why { IfErr result (IsWhyNot graph.old.job event.now) }
    ensures attempts { graph.new.attempts ≡ graph.old.attempts }
{
    match event {
        Event::Opened { epoch } => graph.opened(*epoch),
        Event::Started { .. } => Err(GraphError::Illegal),
        Event::Made { vertex, nodes } => graph.made(*vertex, nodes),
        Event::Widened { node, side } => graph.widened(*node, *side),
        Event::Decided { vertex, assignment } => graph.decided(*vertex, assignment),
        Event::Done {
            name,
            inputs,
            sizes,
        } => won(graph, *name, inputs, sizes),
        Event::Reset { gone, subtasks } => graph.reset(gone, subtasks),
        Event::Trouble { cause } => graph.troubled(cause),
        Event::Ended { failed } => graph.ended(*failed),
    }
}

// Only an attempt that wins is an event. Another one is not legal, since in a valid state a winner's
// part is its subtask's own.
fn won(
    graph: &mut Graph,
    name: PartName,
    inputs: &Names,
    sizes: &EdgeSizes,
) -> Result<(), GraphError>
    ensures ok { OnOk result
        (Takes graph.old.job (Done name inputs.now sizes.now) graph.new.job) }
    ensures same { OnErr result (graph.new.job ≡ graph.old.job) }
    ensures why { IfErr result (IsWhyNot graph.old.job (Done name inputs.now sizes.now)) }
    ensures attempts { graph.new.attempts ≡ graph.old.attempts }
{
    graph.job().is_kept();
    match graph.finished(name, inputs, sizes)? {
        Verdict::Win => Ok(()),
        Verdict::Stale(_) => Err(GraphError::Illegal),
        Verdict::Double(_) => Err(GraphError::Illegal),
    }
}
