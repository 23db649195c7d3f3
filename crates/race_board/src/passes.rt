ghost use Rattle.std.specs.Prelude.{◌≡◌};

use crate::Pass;
use std::marker::Model;
use std::sync::ledger::Ledger;

/// A list of passes.
#[derive(Drop)]
pub struct Passes<L: Ledger, M: Ledger> {
    items: Vec<Pass<L, M>>,
}

impl<L: Ledger, M: Ledger> Model for Passes<L, M> {
    ghost use Rattle.std.specs.Prelude.{List};
    ghost use Rattle.race_board.specs.declared.pass.Pass.{Pass};

    ghost Value = { List (Pass L M) };

    ghost view = { λ list. list.items.items };
}

impl<L: Ledger, M: Ledger> Passes<L, M> {
    pub fn from_vec(items: Vec<Pass<L, M>>) -> Self
        ensures { result ≡ items.items }
    {
        Passes { items }
    }

    pub fn into_vec(self) -> Vec<Pass<L, M>>
        ensures { result.items ≡ self }
    {
        self.items
    }
}
