ghost use Rattle.std.specs.Prelude.{◌≡◌, ◌+◌, ◌<◌, ◌^◌, ◌++◌, ◌∷◌, [], filter, not, IfOk, OnErr};
ghost use Rattle.std.specs.List.{list_any};
ghost use Rattle.attempt_names.specs.Attempts.{is_of, next_name, no_attempts, tries};
ghost use Rattle.estate.specs.Parts.{is_same_name};

use crate::Tries;
use estate::PartName;
use row_core::NoMemory;
use std::alloc::Global;
use std::marker::Model;

/// The names that the attempts of subtasks were given, and those whose attempts still run.
#[derive(Debug, Drop)]
pub struct AttemptNames {
    given: Vec<PartName>,
    running: Vec<PartName>,
    tries: Tries,
}

impl Model for AttemptNames {
    ghost use Rattle.attempt_names.specs.Attempts.{Attempts};
    ghost use Rattle.attempt_names.specs.Tries.{AreTries};

    ghost Value = { Attempts };

    ghost view = { λ names. record { given = names.given.items; running = names.running.items } };

    ghost invariant = { λ names. AreTries names.tries names.given.items };
}

impl AttemptNames {
    pub fn new(alloc: Global) -> Self
        ensures { result ≡ no_attempts }
    {
        AttemptNames {
            given: Vec::new(alloc),
            running: Vec::new(alloc),
            tries: Tries::new(alloc),
        }
    }

    /// Gives the subtask's next attempt of an epoch its name. The attempt runs from then on.
    pub fn deploy(&mut self, vertex: u32, subtask: u32, epoch: u32) -> Result<PartName, NoMemory>
        requires { tries self.old.given vertex subtask epoch + 1 < 2 ^ 32 }
        ensures name { IfOk result (λ name. name ≡ next_name self.old.given vertex subtask epoch) }
        ensures ok { IfOk result (λ name. self.new ≡ record {
          given = self.old.given ++ name ∷ [];
          running = self.old.running ++ name ∷ [];
        }) }
        ensures err { OnErr result (self.new ≡ self.old) }
    {
        let first = PartName {
            vertex,
            subtask,
            epoch,
            attempt: 0,
        };
        let attempt = self.tries.get(first);
        let name = PartName {
            vertex,
            subtask,
            epoch,
            attempt,
        };
        self.given.reserve(1)?;
        self.running.reserve(1)?;
        self.tries.set(first, attempt + 1)?;
        self.given.push_reserved(name);
        self.running.push_reserved(name);
        Ok(name)
    }

    /// The attempt runs no more.
    pub fn drop_name(&mut self, name: PartName)
        ensures { self.new ≡ record self.old {
          running = filter (λ other. not (is_same_name other name)) self.old.running;
        } }
    {
        remove_name(&mut self.running, name);
    }

    /// Whether an attempt of the subtask runs. It costs as much as attempts run.
    pub fn is_running(&self, vertex: u32, subtask: u32) -> bool
        ensures { result ≡ list_any (is_of vertex subtask) self.now.running }
    {
        self.running
            .iter()
            .any(|name| name.vertex == vertex && name.subtask == subtask)
    }

    /// The names whose attempts run, in the order of deployment.
    pub fn running(&self) -> &[PartName]
        ensures { result.now ≡ self.now.running }
    {
        self.running.as_slice()
    }
}

fn remove_name(names: &mut Vec<PartName>, name: PartName)
    ensures { names.new.items ≡ filter (λ other. not (is_same_name other name)) names.old.items }
{
    names.retain(|other| *other != name);
}
