ghost use Rattle.std.specs.Prelude.{◌≡◌, ◌≤◌, ◌+◌, Some, vec_len, vec_capacity};
ghost use Rattle.board_log.specs.Runs.{State, replay, opened, entries_to_come};

use crate::{Entry, Offer};

/// The calls of a board, and what stands after them. It has room for each entry that may come, but
/// for offers and drains, which take the room of their own.
#[derive(Drop)]
pub struct Log {
    pub(crate) history: Vec<Entry>,
    pub(crate) pending: Vec<Offer>,
    pub(crate) owed: Vec<Offer>,
    pub(crate) told: usize,
    pub(crate) cancels: usize,
    pub(crate) stopped: bool,
    pub(crate) halted: Vec<bool>,
    pub(crate) to_come: usize,
    ghost replays: { replay (opened (vec_len halted)) history.items
        ≡ Some (record {
          pending = pending.items;
          owed = owed.items;
          told = told;
          cancels = cancels;
          stopped = stopped;
          halted = halted.items;
        }) },
    ghost comes: { to_come
        ≡ entries_to_come (record {
          pending = pending.items;
          owed = owed.items;
          told = told;
          cancels = cancels;
          stopped = stopped;
          halted = halted.items;
        }) },
    ghost room: { vec_len history + to_come ≤ vec_capacity history },
    ghost owed_room: { vec_len owed + vec_len pending ≤ vec_capacity owed },
    ghost told_bound: { told ≤ vec_len history },
}
