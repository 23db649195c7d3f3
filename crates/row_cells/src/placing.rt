ghost use Rattle.std.specs.Prelude.{◌≡◌, ◌<◌, length, IsTrue};
ghost use Rattle.std.specs.List.{AllByRecursion};
ghost use Rattle.row_core.specs.Encoding.{TextFits};
ghost use Rattle.row_view.specs.Views.{row_seen};
ghost use Rattle.row_cells.specs.Cutting.{ships_to, place_of};

use plan_model::Ship;
use row_core::texts_fit;
use row_view::{ValueRef, hash_at};

/// The cell of the next row, where the cell of this turn is the next that rows are dealt to.
pub fn place_of(ship: &Ship, cells: u32, turn: u32, row: &[ValueRef]) -> u32
    requires turn { turn < cells }
    requires ships { IsTrue (ships_to (length row.now) cells ship.now) }
    requires texts { AllByRecursion TextFits (row_seen row.now) }
    ensures place { result ≡ place_of ship.now cells turn (row_seen row.now) }
    ensures within { result < cells }
{
    texts_fit();
    match ship {
        Ship::Hash(columns) => (hash_at(row, columns.as_slice()) % u64::from(cells)) as u32,
        Ship::Rebalance => turn,
        Ship::Forward | Ship::Broadcast => 0,
    }
}
