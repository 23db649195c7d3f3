ghost use Rattle.std.specs.Prelude.{◌≡◌, ◌≤◌, ◌+◌, map, vec_len, vec_capacity};
ghost use Rattle.board_log.specs.Runs.{takings_of};
ghost use Rattle.race_board.specs.Tasks.{posted_name, name_of};

use crate::Report;
use crate::posted::Posted;
use board_log::Log;
use std::alloc::Global;
use std::sync::ledger::{Book, Ledger};

/// What lies under the board's lock: its history, the tasks of the pending offers in their order,
/// the reports since the last drain, and the books of the calls and of what they took.
#[derive(Drop)]
pub struct BoardState<F, L: Ledger, M: Ledger> {
    pub(crate) alloc: Global,
    pub(crate) log: Log,
    pub(crate) tasks: Vec<Posted>,
    pub(crate) reports: Vec<Report<F>>,
    pub(crate) calls: Book<L>,
    pub(crate) takings: Book<M>,
    ghost same: { map posted_name tasks.items ≡ map name_of log.pending.items },
    ghost told: { vec_len reports ≡ log.told },
    ghost room: { vec_len reports + (vec_len log.pending + vec_len log.owed)
        ≤ vec_capacity reports },
    ghost called: { calls.total ≡ vec_len log.history },
    ghost took: { takings.total ≡ takings_of log.history.items },
}
