ghost use Rattle.core_progress.specs.Progress.{AdvanceLaw, BoundLaw};

/// A step that widens, makes, decides or wins leaves less work; one that finds a part gone brings
/// the job one trouble nearer to its end; any other leaves the work as it was, or is such a
/// trouble.
pub fn steps_advance()
    ensures { AdvanceLaw }
{}

/// A job never has more than one trouble above the limit.
pub fn troubles_are_bounded()
    ensures { BoundLaw }
{}
