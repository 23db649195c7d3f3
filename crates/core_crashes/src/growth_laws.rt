ghost use Rattle.core_crashes.specs.Laws.{FirstPartLaw, GrowsLaw, SoundPartLaw};

/// What the master adds to its estate in two goes, it may add in one.
pub fn holdings_grow_on()
    ensures { GrowsLaw }
{}

/// A crash that leaves a first part of the master's events leaves one of all that follow.
pub fn first_parts_stay()
    ensures log { FirstPartLaw }
    ensures sound { SoundPartLaw }
{}
