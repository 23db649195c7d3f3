ghost use Rattle.std.specs.Prelude.{◌≡◌, All, IfOk, length, vec_len};
ghost use Rattle.race_board.specs.Tokens.{IsNewPass};
ghost use Rattle.race_words.specs.Seats.{view_of, IsSeatOf};
ghost use Rattle.worker_pool.specs.Workers.{IsReady};

use crate::Worker;
use race_board::Passes;
use race_words::{Races, Seat};
use row_core::NoMemory;
use std::alloc::Global;
use std::sync::ledger::Ledger;

/// A worker for each pass, with a seat that is split off this one.
pub fn crew_of<L: Ledger, M: Ledger>(
    alloc: Global,
    races: &Races,
    seat: &mut Seat,
    passes: Passes<L, M>,
) -> Result<Vec<Worker<L, M>>, NoMemory>
    requires seat { IsSeatOf races.now seat.old }
    requires passes { All IsNewPass passes }
    ensures count { IfOk result (λ crew. vec_len crew ≡ length passes) }
    ensures ready { IfOk result (λ crew. All (IsReady races.now) crew.items) }
    ensures seat { IsSeatOf races.now seat.new }
    ensures same { view_of seat.new ≡ view_of seat.old }
{
    let mut crew = Vec::new(alloc);
    let mut passes = passes.into_vec();
    while let Some(pass) = passes.pop() {
        let seat = races.split(seat);
        crew.push(Worker { pass, seat })?;
    }
    Ok(crew)
}

/// The passes of the workers, whose seats are let go.
pub fn passes_of<L: Ledger, M: Ledger>(
    alloc: Global,
    crew: Vec<Worker<L, M>>,
) -> Result<Passes<L, M>, NoMemory>
    ensures { IfOk result (λ passes. length passes ≡ vec_len crew) }
{
    let mut crew = crew;
    let mut passes = Vec::new(alloc);
    while let Some(worker) = crew.pop() {
        let Worker { pass, seat: _ } = worker;
        passes.push(pass)?;
    }
    Ok(Passes::from_vec(passes))
}
