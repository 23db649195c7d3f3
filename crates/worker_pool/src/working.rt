ghost use Rattle.std.specs.Prelude.{◌≡◌, true, false, None};
ghost use Rattle.race_words.specs.Seats.{view_of, IsSeatOf};

use crate::attempting::attempt;
use estate::Gate;
use race_board::{Board, Claim, Pass};
use race_words::{Races, Seat};
use std::alloc::Global;
use std::sync::Wait;
use std::sync::ledger::Ledger;

/// Runs what it claims with this pass, and reports each, until it is told that the board is
/// stopped. A lane that the races lack is run without a race.
pub fn work<G: Gate, L: Ledger, M: Ledger, R: Wait>(
    rt: &R,
    alloc: Global,
    board: &Board<G::Fault, L, M>,
    pass: &mut Pass<L, M>,
    gate: &G,
    races: &Races,
    seat: &mut Seat,
)
where
    G::Fault: Drop,
    requires pass { (pass.old.halted ≡ false) × (pass.old.owed ≡ None) }
    requires seat { IsSeatOf races.now seat.old }
    ensures halted { pass.new.halted ≡ true }
    ensures owed { pass.new.owed ≡ None }
    ensures worker { pass.new.worker ≡ pass.old.worker }
    ensures seat { IsSeatOf races.now seat.new }
    ensures same { (view_of seat.new).is_master ≡ (view_of seat.old).is_master }
{
    for _ in rt.forever() {
        match board.claim(rt, pass) {
            Claim::Stop => return,
            Claim::Task(task, race) => {
                let report = attempt(alloc, gate, races, seat, task, race);
                board.report(rt, pass, report);
            }
        }
    }
    unreachable!()
}
