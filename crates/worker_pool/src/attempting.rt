ghost use Rattle.std.specs.Prelude.{◌≡◌, ◌<◌, IfErr, IfOk};
ghost use Rattle.std.specs.Arc.{arc_value};
ghost use Rattle.race_board.specs.Reports.{name_by};
ghost use Rattle.race_words.specs.Seats.{lanes_of, view_of, IsSeatOf};
ghost use Rattle.worker_pool.specs.Told.{Reports, TellsNoRace};

use crate::racing::{winner_at_last, winner_so_far};
use estate::Gate;
use race_board::{Race, Report};
use race_words::{Races, Seat};
use std::alloc::Global;
use std::sync::Arc;
use task_body::{Ran, Task, run_task};

/// Runs a task that races, unless its round is decided for another runner already, and says what
/// came of it.
pub fn attempt<G: Gate>(
    alloc: Global,
    gate: &G,
    races: &Races,
    seat: &mut Seat,
    task: Arc<Task>,
    race: Race,
) -> Report<G::Fault>
    requires { IsSeatOf races.now seat.old }
    ensures name { name_by G.Fault.name_of result ≡ (arc_value task).name }
    ensures race { race.lane < lanes_of races.now → Reports race result (view_of seat.new) }
    ensures seat { IsSeatOf races.now seat.new }
    ensures same { (view_of seat.new).is_master ≡ (view_of seat.old).is_master }
{
    let name = task.name();
    if race.lane >= races.lanes() {
        return match run(alloc, gate, task) {
            Ok(ran) => Report::Ran(ran),
            Err(report) => report,
        };
    }
    if let Some(winner) = winner_so_far(races, seat, &race) {
        return Report::Lost(name, u32::from(winner));
    }
    match run(alloc, gate, task) {
        Ok(ran) => match winner_at_last(races, seat, &race) {
            Some(winner) => Report::Lost(name, u32::from(winner)),
            None => Report::Ran(ran),
        },
        Err(report) => report,
    }
}

// Runs a task, if the gate lets it in.
fn run<G: Gate>(alloc: Global, gate: &G, task: Arc<Task>) -> Result<Ran, Report<G::Fault>>
    ensures ran { IfOk result (λ ran. ran.task ≡ task) }
    ensures name { IfErr result (λ report.
        name_by G.Fault.name_of report ≡ (arc_value task).name) }
    ensures no_race { IfErr result TellsNoRace }
{
    let name = task.name();
    if let Err(fault) = gate.enter(name) {
        return Err(Report::Fault(fault));
    }
    match run_task(alloc, task) {
        Ok(ran) => Ok(ran),
        Err(_) => Err(Report::NoMemory(name)),
    }
}
