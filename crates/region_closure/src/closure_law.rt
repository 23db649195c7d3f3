ghost use Rattle.region_closure.specs.Closing.{ClosureLaw, SameLaw};

/// The subtasks whose tasks run again are the least set of the two rules: who is lost and wanted,
/// and the finished readers of those that run again.
pub fn reruns_are_the_closure()
    ensures { ClosureLaw }
{}

/// Only one list of subtasks is the closure.
pub fn closures_are_one()
    ensures { SameLaw }
{}
