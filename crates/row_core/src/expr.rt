ghost use Rattle.std.specs.Prelude.{◌≡◌};
ghost use Rattle.row_core.specs.Exprs.{columns_within};

use crate::Value;
use sqlite_items::Boxed;

/// An expression over a row. A column goes by its place, from 0. The rules are those of
/// docs/SEMANTICS.md.
#[derive(Debug, Drop)]
pub enum Expr {
    Col(u32),
    Const(Value),
    Add(Boxed<Expr>, Boxed<Expr>),
    Sub(Boxed<Expr>, Boxed<Expr>),
    Mul(Boxed<Expr>, Boxed<Expr>),
    Concat(Boxed<Expr>, Boxed<Expr>),
}

impl Expr {
    /// Whether each column is below the width of a row.
    pub fn fits(&self, width: u32) -> bool
        ensures { result ≡ columns_within width self.now }
    {
        match self {
            Expr::Col(column) => *column < width,
            Expr::Const(_) => true,
            Expr::Add(a, b) | Expr::Sub(a, b) | Expr::Mul(a, b) | Expr::Concat(a, b) => {
                a.get().fits(width) && b.get().fits(width)
            }
        }
    }
}
