ghost use Rattle.std.specs.Prelude.{◌≡◌, ◌<◌, ◌^◌, [], length};
ghost use Rattle.plan_model.specs.Checks.{plan_faults};

use crate::{Node, Plan};
use std::marker::Model;

/// A plan without a fault, of fewer than 2^32 nodes.
#[derive(Debug, Drop)]
pub struct GoodPlan {
    plan: Plan,
}

impl Model for GoodPlan {
    ghost use Rattle.std.specs.Prelude.{◌≡◌, ◌<◌, ◌^◌, List, [], length};
    ghost use Rattle.plan_model.specs.Checks.{plan_faults};
    ghost use Rattle.plan_model.specs.declared.node.Node.{Node};
    ghost use Rattle.row_core.specs.contracts.expr.Expr as expr;
    ghost use Rattle.row_core.specs.contracts.pred.Pred as pred;
    ghost use Rattle.std.specs.Coded.{codes};

    ghost Value = { List Node };

    ghost view = { λ good. good.plan };

    ghost invariant = { λ good. (plan_faults good.plan ≡ []) × (length good.plan < 2 ^ 32) };

    ghost coded = { Prim.hlevel (codes, expr.the_row.coded, pred.the_row.coded) };
}

impl GoodPlan {
    // the plan, which is known to have no fault
    pub(crate) fn from_plan(plan: Plan) -> Self
        requires faultless { plan_faults plan ≡ [] }
        requires few { length plan < 2 ^ 32 }
        ensures { result ≡ plan }
    {
        GoodPlan { plan }
    }

    pub fn plan(&self) -> &Plan
        ensures same { result.now ≡ self.now }
        ensures faultless { plan_faults result.now ≡ [] }
        ensures few { length result.now < 2 ^ 32 }
    {
        &self.plan
    }

    pub fn nodes(&self) -> &[Node]
        ensures same { result.now ≡ self.now }
        ensures faultless { plan_faults result.now ≡ [] }
        ensures few { length result.now < 2 ^ 32 }
    {
        self.plan.as_slice()
    }
}
