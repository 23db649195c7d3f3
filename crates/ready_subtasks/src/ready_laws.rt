ghost use Rattle.ready_subtasks.specs.Marks.{MarkedLaw};

/// Where each subtask's mark tells whether it is ready, the marked ones are the ready ones, in
/// order.
pub fn marked_are_ready()
    ensures { MarkedLaw }
{}
