ghost use Rattle.std.specs.Prelude.{◌≡◌, ◌∷◌, [], ℕ, List, OnOk};
ghost use Rattle.bag_laws.specs.Rows.{OneRow};
ghost use Rattle.row_collector.specs.Collecting.{Collects};
ghost use Rattle.row_view.specs.Encoded.{RowOf};
ghost use Rattle.row_view.specs.Views.{row_seen};

use row_core::NoMemory;
use row_view::ValueRef;

/// Takes rows of one width, one after another. What it makes of them is its own.
pub trait Collector {
    /// How many values its rows have.
    ghost width: { Self → ℕ };

    /// What it was made with, which stays.
    ghost Kept: { Type 0 } = { Unit {0} };

    ghost kept: { Self → Self.Kept };

    /// It holds what it makes of these rows, which it took in this order.
    ghost holds: { Self → List OneRow → Type 0 };

    /// Takes a row. After want of memory it is not known what the collector holds.
    fn collect(&mut self, row: &[ValueRef]) -> Result<(), NoMemory>
        requires { RowOf (width self.old) (row_seen row.now) }
        ensures width { width self.new ≡ width self.old }
        ensures kept { kept self.new ≡ kept self.old }
        ensures takes { OnOk result (Collects holds self.old self.new (row_seen row.now ∷ [])) };
}
