ghost use Rattle.std.specs.Prelude.{◌≡◌};

use crate::Run;
use std::marker::Model;

/// The subtasks of a vertex that run, each once.
#[derive(Debug, Drop)]
pub struct Runs {
    runs: Vec<Run>,
}

impl Model for Runs {
    ghost use Rattle.std.specs.Prelude.{List};
    ghost use Rattle.slow_detector.specs.declared.run.Run.{Run};

    ghost Value = { List Run };

    ghost view = { λ list. list.runs.items };
}

impl Runs {
    pub fn from_vec(runs: Vec<Run>) -> Self
        ensures { result ≡ runs.items }
    {
        Runs { runs }
    }

    pub fn into_vec(self) -> Vec<Run>
        ensures { result.items ≡ self }
    {
        self.runs
    }

    pub fn as_slice(&self) -> &[Run]
        ensures { result.now ≡ self.now }
    {
        self.runs.as_slice()
    }
}
