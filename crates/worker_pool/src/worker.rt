use race_board::Pass;
use race_words::Seat;
use std::sync::ledger::Ledger;

/// A worker's tokens: its pass of the board, and its seat at the races.
#[derive(Drop)]
pub struct Worker<L: Ledger, M: Ledger> {
    pub pass: Pass<L, M>,
    pub seat: Seat,
}
