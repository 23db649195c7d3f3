ghost use Rattle.std.specs.Prelude.{◌≡◌, All};
ghost use Rattle.ready_subtasks.specs.Marks.{AreMarked, IsDecidedSub};
ghost use Rattle.ready_subtasks.specs.Ready.{is_ready};
ghost use Rattle.ready_subtasks.specs.Touches.{IsRefreshed};

use attempt_names::AttemptNames;
use event_graph::EventGraph;
use graph_model::Sub;
use ready_subtasks::ReadySubs;

/// Notes anew which of these subtasks are ready. It takes no memory. For one that nothing but an
/// attempt may keep from being ready it costs as much as attempts run.
pub fn refresh(ready: &mut ReadySubs, job: &EventGraph, attempts: &AttemptNames, subs: &[Sub])
    requires decided { All (IsDecidedSub job.now.state.vertices) subs.now }
    requires marked { AreMarked job.now.state.vertices ready.old }
    ensures { IsRefreshed job.now.state.vertices attempts.now subs.now ready.old ready.new }
{
    for place in 0..subs.len() {
        ready.set(subs[place], is_ready(job, attempts, subs[place]));
    }
}

fn is_ready(job: &EventGraph, attempts: &AttemptNames, sub: Sub) -> bool
    requires { IsDecidedSub job.now.state.vertices sub }
    ensures { result ≡ is_ready job.now.state.vertices attempts.now sub }
{
    job.winner(sub).is_none() && job.is_fed(sub) && !attempts.is_running(sub.vertex, sub.subtask)
}
