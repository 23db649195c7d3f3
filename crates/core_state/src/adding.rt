ghost use Rattle.std.specs.Prelude.{◌≡◌, OnOk, OnErr, IfErr};
ghost use Rattle.core_state.specs.Masters.{Joins, job_state};
ghost use Rattle.event_codec.specs.Spelling.{IsShort};
ghost use Rattle.job_events.specs.Applied.{IsWhyNot};

use crate::MasterState;
use exec_graph::{Event, GraphError};
use job_events::apply;

impl MasterState {
    /// Takes an event, where it is legal. Nothing is written.
    pub fn add(&mut self, event: Event) -> Result<(), GraphError>
        requires { IsShort event }
        ensures ok { OnOk result (Joins event self.old self.new) }
        ensures same { OnErr result (self.new ≡ self.old) }
        ensures why { IfErr result (IsWhyNot (job_state self.old) event) }
    {
        self.buffer.reserve(1)?;
        apply(&mut self.graph, &event)?;
        self.buffer.push_reserved(event);
        Ok(())
    }
}
