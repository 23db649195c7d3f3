ghost use Rattle.std.specs.Prelude.{◌≡◌, ◌+◌, ◌≤◌, OnOk, OnErr, IfOk, IfErr, MatchOption, vec_len, vec_capacity};
ghost use Rattle.core_crashes.specs.Goes.{Goes};
ghost use Rattle.core_crashes.specs.Growth.{AddsOne};
ghost use Rattle.core_crashes.specs.Standing.{IsFor};
ghost use Rattle.core_model.specs.Nothing.{NothingToFlush};
ghost use Rattle.core_model.specs.declared.step.Step.TheVariants.{Flush};
ghost use Rattle.core_state.specs.Steps.{GoesSound, StaysRight, TakesStep, unflushed};
ghost use Rattle.core_state.specs.Writing.{WhyUnflushed};

use crate::MasterState;
use crate::blocks::{append_reserved, write_block};
use core_model::Step;
use estate::Estate;
use event_log::LogError;
use exec_graph::Event;
use row_core::NoMemory;

impl MasterState {
    /// Flushes the events that are not flushed, as one block, and tells how many they were; none
    /// where all are flushed. `BadBlock` never comes. A call that answers an error changes nothing
    /// here; after `Fault` no further call is made.
    pub fn flush<E: Estate>(&mut self, estate: &mut E) -> Result<Option<u64>, LogError>
        requires { IsFor self.old.job self.old.core (E.world estate.old) }
        ensures goes { Goes self.old.job self.old.core self.new.core
            (E.world estate.old) (E.world estate.new) }
        ensures stands { OnOk result (IsFor self.old.job self.new.core (E.world estate.new)) }
        ensures sound { GoesSound self.old self.new (E.world estate.old) (E.world estate.new) }
        ensures right { OnOk result
            (StaysRight self.old self.new (E.world estate.old) (E.world estate.new)) }
        ensures adds { AddsOne (E.world estate.old) (E.world estate.new) }
        ensures took { IfOk result (λ count. MatchOption count
            (NothingToFlush self.old.core × (self.new ≡ self.old) × (estate.new ≡ estate.old))
            (λ events. TakesStep (Flush events) self.old self.new
            (E.world estate.old) (E.world estate.new))) }
        ensures same { OnErr result (self.new ≡ self.old) }
        ensures why { IfErr result (WhyUnflushed (unflushed self.old.core) self.old.core.log_end
            (E.world estate.old) (E.world estate.new)) }
    {
        if self.buffer.is_empty() {
            return Ok(None);
        }
        reserve_block(&mut self.past, &mut self.trace, self.buffer.len())?;
        write_block(self.alloc, &mut self.log, estate, &mut self.buffer)?;
        let events = self.buffer.len() as u64;
        append_reserved(&mut self.past, &mut self.buffer);
        self.trace.push_reserved(Step::Flush { events });
        Ok(Some(events))
    }
}

// Takes the room for a block's events and for its step.
fn reserve_block(
    past: &mut Vec<Event>,
    trace: &mut Vec<Step>,
    events: usize,
) -> Result<(), NoMemory>
    ensures past { past.new.items ≡ past.old.items }
    ensures trace { trace.new.items ≡ trace.old.items }
    ensures past_len { vec_len past.new ≡ vec_len past.old }
    ensures trace_len { vec_len trace.new ≡ vec_len trace.old }
    ensures room { OnOk result (vec_len past.new + events ≤ vec_capacity past.new) }
    ensures room_of_step { OnOk result (vec_len trace.new + 1 ≤ vec_capacity trace.new) }
{
    past.reserve(events)?;
    trace.reserve(1)?;
    Ok(())
}
