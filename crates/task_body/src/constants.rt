ghost use Rattle.std.specs.Prelude.{◌↔◌, IsTrue};
ghost use Rattle.operator_laws.specs.Texts.{ConstantFits, ConstantsFit};
ghost use Rattle.row_core.specs.Encoding.{ValueFits};
ghost use Rattle.task_body.specs.Plans.{ConstantsFitAt};

use plan_model::{GoodPlan, Op};
use row_core::{Expr, TEXT_LIMIT, Value};

/// Whether the constants that the nodes of a chain project can be encoded. No text of a job is
/// longer than its own text, so they can; a plan that is made in code may have longer ones.
pub fn constants_fit(plan: &GoodPlan, chain: &[u32]) -> bool
    ensures { IsTrue result ↔ ConstantsFitAt plan.now chain.now }
{
    let nodes = plan.nodes();
    chain.iter().all(|node| match nodes.get(*node as usize) {
        Some(node) => op_fits(&node.op),
        None => true,
    })
}

fn op_fits(op: &Op) -> bool
    ensures { IsTrue result ↔ ConstantsFit op.now }
{
    match op {
        Op::Project { exprs } => exprs.as_slice().iter().all(|expr| constant_fits(expr)),
        _ => true,
    }
}

fn constant_fits(expr: &Expr) -> bool
    ensures { IsTrue result ↔ ConstantFits expr.now }
{
    match expr {
        Expr::Const(value) => value_fits(value),
        _ => true,
    }
}

fn value_fits(value: &Value) -> bool
    ensures { IsTrue result ↔ ValueFits value.now }
{
    match value {
        Value::Null => true,
        Value::Int(number) => {
            let _of_64_bits = *number;
            true
        }
        Value::Text(text) => text.len() <= TEXT_LIMIT,
    }
}
