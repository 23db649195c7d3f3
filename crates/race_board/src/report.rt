ghost use Rattle.std.specs.Prelude.{◌≡◌};
ghost use Rattle.race_board.specs.Reports.{kind_of, name_by};

use board_log::Kind;
use estate::{GateFault, PartName};
use task_body::Ran;

/// What a worker tells of an attempt.
#[derive(Debug, Drop)]
pub enum Report<F> {
    /// It ran to its end.
    Ran(Ran),
    /// The gate did not let it in.
    Fault(F),
    /// Another runner, of this number, won its race.
    Lost(PartName, u32),
    /// Memory ran out in it.
    NoMemory(PartName),
}

impl<F: GateFault> Report<F> {
    /// The attempt's name.
    pub fn name(&self) -> PartName
        ensures { result ≡ name_by F.name_of self.now }
    {
        match self {
            Report::Ran(ran) => ran.task.name(),
            Report::Fault(fault) => fault.name(),
            Report::Lost(name, _) => *name,
            Report::NoMemory(name) => *name,
        }
    }

    pub fn kind(&self) -> Kind
        ensures { result ≡ kind_of self.now }
    {
        match self {
            Report::Ran(_) => Kind::Ran,
            Report::Fault(_) => Kind::Fault,
            Report::Lost(_, _) => Kind::Lost,
            Report::NoMemory(_) => Kind::NoMemory,
        }
    }
}
