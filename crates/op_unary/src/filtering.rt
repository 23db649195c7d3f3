ghost use Rattle.std.specs.Prelude.{◌≡◌, [], ◌∷◌, ◌++◌, length, OnOk, IsTrue};
ghost use Rattle.row_core.specs.Exprs.{pred_within};
ghost use Rattle.plan_model.specs.Operators.{filtered};

use row_core::{NoMemory, Pred, Row, Rows, holds};
use std::alloc::Global;

/// Appends the row where the test holds.
pub fn keep_if(alloc: Global, out: &mut Rows, test: &Pred, row: &Row) -> Result<(), NoMemory>
    requires { IsTrue (pred_within (length row.now) test.now) }
    ensures { OnOk result (out.new ≡ out.old ++ filtered test.now (row.now ∷ [])) }
{
    if holds(alloc, test, row)? {
        out.push(row.copy(alloc)?)?;
    }
    Ok(())
}
