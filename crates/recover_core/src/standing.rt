ghost use Rattle.std.specs.Prelude.{◌≤◌, ◌<◌, ◌+◌, ◌^◌, length};
ghost use Rattle.graph_model.specs.declared.event.Event.{Event as OneEvent};
ghost use Rattle.graph_model.specs.Folds.{fold_from};
ghost use Rattle.graph_model.specs.Legal.{after};
ghost use Rattle.graph_model.specs.States.{Given, State, started};
ghost use Rattle.recover_core.specs.Standing.{IsStanding};

use graph_model::Event;

/// How far a job's events have come: the last epoch, the number of troubles, and how the job ended:
/// failed or not.
#[derive(Clone, Copy, Debug, PartialEq, Eq)]
pub struct Standing {
    pub epoch: u32,
    pub troubles: u64,
    pub ended: Option<bool>,
}

impl Standing {
    /// How far these events have come.
    pub fn of(events: &[Event]) -> Self
        requires { length events.now < 2 ^ 63 }
        ensures { (given : Given) → IsStanding (fold_from given started events.now) result }
    {
        let mut standing = Standing {
            epoch: 0,
            troubles: 0,
            ended: None,
        };
        for event in events {
            standing = standing.noted(event);
        }
        standing
    }

    // One event more.
    fn noted(self, event: &Event) -> Self
        requires { self.troubles + 1 < 2 ^ 64 }
        ensures after { (given : Given) (state : State) → IsStanding state self
            → IsStanding (after given state event.now) result }
        ensures few { result.troubles ≤ self.troubles + 1 }
    {
        match event {
            Event::Opened { epoch } => Standing {
                epoch: *epoch,
                troubles: self.troubles,
                ended: self.ended,
            },
            Event::Trouble { .. } => Standing {
                epoch: self.epoch,
                troubles: self.troubles + 1,
                ended: self.ended,
            },
            Event::Ended { failed } => Standing {
                epoch: self.epoch,
                troubles: self.troubles,
                ended: Some(*failed),
            },
            _ => self,
        }
    }
}
