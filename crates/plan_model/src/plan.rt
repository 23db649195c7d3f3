ghost use Rattle.std.specs.Prelude.{◌≡◌};

use crate::Node;
use std::marker::Model;

/// The nodes of a plan. A node is numbered by its place, and its inputs stand before it.
#[derive(Debug, Drop)]
pub struct Plan {
    items: Vec<Node>,
}

impl Model for Plan {
    ghost use Rattle.std.specs.Prelude.{List};
    ghost use Rattle.plan_model.specs.declared.node.Node.{Node};
    ghost use Rattle.row_core.specs.contracts.expr.Expr as expr;
    ghost use Rattle.row_core.specs.contracts.pred.Pred as pred;
    ghost use Rattle.std.specs.Coded.{codes};

    ghost Value = { List Node };

    ghost view = { λ list. list.items.items };

    ghost coded = { Prim.hlevel (codes, expr.the_row.coded, pred.the_row.coded) };
}

impl Plan {
    pub fn from_vec(items: Vec<Node>) -> Self
        ensures { result ≡ items.items }
    {
        Plan { items }
    }

    pub fn into_vec(self) -> Vec<Node>
        ensures { result.items ≡ self }
    {
        self.items
    }

    pub fn as_slice(&self) -> &[Node]
        ensures { result.now ≡ self.now }
    {
        self.items.as_slice()
    }
}
