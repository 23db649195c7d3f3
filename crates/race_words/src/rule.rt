use crate::View;
use atomic_table::{Join, Play, Split, TableRule};

/// What always holds of the words and of all seats' views; the key of the table is the number of
/// lanes.
pub struct Rule;

impl TableRule<(), View, u64> for Rule {
    ghost use Rattle.race_words.specs.Kept.{Kept};
    ghost use Rattle.race_words.specs.Views.{opening_view};

    ghost holds = { Kept };

    ghost first = { opening_view };
}

/// The master begins a lane's next round.
pub struct Begin;

impl Play<(), View> for Begin {
    ghost use Rattle.race_words.specs.Kept.{Begins};

    ghost then = { Begins };
}

/// The master looks up a lane's round.
pub struct ReadRound;

impl Play<(), View> for ReadRound {
    ghost use Rattle.race_words.specs.Kept.{ReadsRound};

    ghost then = { ReadsRound };
}

/// A seat looks at a lane.
pub struct Observe;

impl Play<(), View> for Observe {
    ghost use Rattle.race_words.specs.Kept.{Observes};

    ghost then = { Observes };
}

/// A seat decides a lane's round, if it is undecided.
pub struct Decide;

impl Play<(), View> for Decide {
    ghost use Rattle.race_words.specs.Kept.{Decides};

    ghost then = { Decides };
}

/// A seat learns that what it observed agrees.
pub struct Compare;

impl Play<(), View> for Compare {
    ghost use Rattle.race_words.specs.Kept.{Compares};

    ghost then = { Compares };
}

/// Seats of workers come and go.
pub struct Worker;

impl Split<View> for Worker {
    ghost use Rattle.race_words.specs.Views.{newcomer};

    ghost left = { λ v. v };

    ghost right = { λ v. newcomer };
}

impl Join<View> for Worker {
    ghost use Rattle.race_words.specs.Views.{joined, newcomer};

    ghost both = { joined };

    ghost spent = { newcomer };
}
