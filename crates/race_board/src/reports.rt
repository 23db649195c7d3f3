ghost use Rattle.std.specs.Prelude.{◌≡◌};

use crate::Report;
use std::marker::Model;

/// A list of reports.
#[derive(Drop)]
pub struct Reports<F> {
    items: Vec<Report<F>>,
}

impl<F> Model for Reports<F> {
    ghost use Rattle.std.specs.Prelude.{List};
    ghost use Rattle.race_board.specs.declared.report.Report.{Report};
    ghost use Rattle.task_body.specs.contracts.ran.Ran as ran;
    ghost use Rattle.std.specs.Coded.{codes};

    ghost Value = { List (Report F) };

    ghost view = { λ list. list.items.items };

    ghost coded = { Prim.hlevel (codes, ran.the_row.coded) };
}

impl<F> Reports<F> {
    pub fn from_vec(items: Vec<Report<F>>) -> Self
        ensures { result ≡ items.items }
    {
        Reports { items }
    }

    pub fn into_vec(self) -> Vec<Report<F>>
        ensures { result.items ≡ self }
    {
        self.items
    }

    pub fn as_slice(&self) -> &[Report<F>]
        ensures { result.now ≡ self.now }
    {
        self.items.as_slice()
    }
}
