ghost use Rattle.std.specs.Prelude.{◌≡◌};
ghost use Rattle.std.specs.List.{list_all};
ghost use Rattle.row_core.specs.Exprs.{columns_within};

use row_core::Expr;
use std::marker::Model;

/// The expressions of a project node, one for each column that it gives.
#[derive(Debug, Drop)]
pub struct Exprs {
    items: Vec<Expr>,
}

impl Model for Exprs {
    ghost use Rattle.std.specs.Prelude.{List};
    ghost use Rattle.row_core.specs.declared.expr.Expr.{Expr};
    ghost use Rattle.row_core.specs.contracts.expr.Expr as expr;
    ghost use Rattle.std.specs.Coded.{codes};

    ghost Value = { List Expr };

    ghost view = { λ list. list.items.items };

    ghost coded = { Prim.hlevel (codes, expr.the_row.coded) };
}

impl Exprs {
    pub fn from_vec(items: Vec<Expr>) -> Self
        ensures { result ≡ items.items }
    {
        Exprs { items }
    }

    pub fn into_vec(self) -> Vec<Expr>
        ensures { result.items ≡ self }
    {
        self.items
    }

    pub fn as_slice(&self) -> &[Expr]
        ensures { result.now ≡ self.now }
    {
        self.items.as_slice()
    }

    /// Whether the columns of each are below the width of a row.
    pub fn fit(&self, width: u32) -> bool
        ensures { result ≡ list_all (columns_within width) self.now }
    {
        self.items.iter().all(|expr| expr.fits(width))
    }
}
