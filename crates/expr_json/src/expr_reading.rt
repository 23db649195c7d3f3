ghost use Rattle.std.specs.Prelude.{◌≡◌, IfOk, IfSome, IfNone, IsTrue};
ghost use Rattle.serde_json.specs.View.{view};
ghost use Rattle.row_core.specs.declared.expr.Expr.{Expr};
ghost use Rattle.expr_json.specs.Ranges.{has_utf8_texts};
ghost use Rattle.expr_json.specs.Reading.{expr_of, null_of, operation_of};
ghost use Rattle.expr_json.specs.Spelling.{SpellsExpr};

use crate::form::word_and_parts;
use crate::leaf::read_leaf;
use crate::operator::Operator;
use row_core::{Expr, NoMemory, Value as Literal};
use serde_json::Value;
use std::alloc::Global;

/// The expression that the value spells, if it spells one.
pub fn read_expr(alloc: Global, value: &Value) -> Result<Option<Expr>, NoMemory>
    ensures is { IfOk result (λ found. found ≡ expr_of (view value.now)) }
    ensures spelled { IfOk result
        (λ found. IfSome found (λ expr. SpellsExpr (view value.now) expr)) }
    ensures only { IfOk result (λ found. IfSome found (λ expr.
        (other : Expr) → SpellsExpr (view value.now) other → other ≡ expr)) }
    ensures none { IfOk result (λ found. IfNone found (
        (expr : Expr) → ¬ SpellsExpr (view value.now) expr)) }
{
    find_expr(alloc, value)
}

pub fn find_expr(alloc: Global, value: &Value) -> Result<Option<Expr>, NoMemory>
    ensures is { IfOk result (λ found. found ≡ expr_of (view value.now)) }
    ensures texts { IfOk result (λ found. IfSome found (λ expr. IsTrue (has_utf8_texts expr))) }
{
    let Some((word, parts)) = word_and_parts(value) else {
        return Ok(None);
    };
    match parts {
        [] => Ok(read_null(word)),
        [item] => read_leaf(alloc, word, item),
        [a, b] => {
            let a = find_expr(alloc, a)?;
            let b = find_expr(alloc, b)?;
            read_operation(alloc, word, a, b)
        }
        _ => Ok(None),
    }
}

fn read_null(word: &str) -> Option<Expr>
    ensures is { result ≡ null_of word.now }
    ensures texts { IfSome result (λ expr. IsTrue (has_utf8_texts expr)) }
{
    match word {
        "null" => Some(Expr::Const(Literal::Null)),
        _ => None,
    }
}

#[tactic(auto, unfolding(crate::specs::Reading::operation_of))]
fn read_operation(
    alloc: Global,
    word: &str,
    a: Option<Expr>,
    b: Option<Expr>,
) -> Result<Option<Expr>, NoMemory>
    requires a { IfSome a (λ expr. IsTrue (has_utf8_texts expr)) }
    requires b { IfSome b (λ expr. IsTrue (has_utf8_texts expr)) }
    ensures is { IfOk result (λ found. found ≡ operation_of word.now a b) }
    ensures texts { IfOk result (λ found. IfSome found (λ expr. IsTrue (has_utf8_texts expr))) }
{
    match (Operator::named(word), a, b) {
        (Some(operator), Some(a), Some(b)) => Ok(Some(operator.apply(alloc, a, b)?)),
        _ => Ok(None),
    }
}
