ghost use Rattle.std.specs.Prelude.{◌≡◌};
ghost use Rattle.row_core.specs.Exprs.{pred_within};

use crate::{Cmp, Expr};
use sqlite_items::Boxed;

/// A test of a row, with three answers: a comparison with a Null is neither yes nor no.
#[derive(Debug, Drop)]
pub enum Pred {
    Test(Cmp, Expr, Expr),
    IsNull(Expr),
    And(Boxed<Pred>, Boxed<Pred>),
    Or(Boxed<Pred>, Boxed<Pred>),
    Not(Boxed<Pred>),
}

impl Pred {
    /// Whether each column is below the width of a row.
    pub fn fits(&self, width: u32) -> bool
        ensures { result ≡ pred_within width self.now }
    {
        match self {
            Pred::Test(_, a, b) => a.fits(width) && b.fits(width),
            Pred::IsNull(a) => a.fits(width),
            Pred::And(p, q) | Pred::Or(p, q) => p.get().fits(width) && q.get().fits(width),
            Pred::Not(p) => p.get().fits(width),
        }
    }
}
