ghost use Rattle.std.specs.Prelude.{◌≡◌, []};

use crate::View;
use atomic_table::Seat as TableSeat;

/// A thread's place at the races, and what it was told there; contracts read it by `view_of`.
#[derive(Drop)]
pub struct Seat {
    pub(crate) seat: TableSeat<(), View>,
    ghost no_slot: { seat.me.1 ≡ [] },
}
