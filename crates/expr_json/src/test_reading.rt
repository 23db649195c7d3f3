ghost use Rattle.std.specs.Prelude.{◌≡◌, IfOk, IfSome, IfNone, IsTrue, option_map};
ghost use Rattle.serde_json.specs.View.{view};
ghost use Rattle.row_core.specs.declared.pred.Pred.{Pred, Not, IsNull};
ghost use Rattle.expr_json.specs.Ranges.{has_utf8_texts, test_has_utf8_texts};
ghost use Rattle.expr_json.specs.Reading.{expr_of, test_of, comparison_of, connection_of};
ghost use Rattle.expr_json.specs.Spelling.{SpellsTest};

use crate::comparison::comparison_named;
use crate::connective::Connective;
use crate::expr_reading::find_expr;
use crate::form::word_and_parts;
use row_core::{Expr, NoMemory, Pred};
use serde_json::Value;
use sqlite_items::Boxed;
use std::alloc::Global;

/// The test that the value spells, if it spells one.
pub fn read_test(alloc: Global, value: &Value) -> Result<Option<Pred>, NoMemory>
    ensures is { IfOk result (λ found. found ≡ test_of (view value.now)) }
    ensures spelled { IfOk result
        (λ found. IfSome found (λ test. SpellsTest (view value.now) test)) }
    ensures only { IfOk result (λ found. IfSome found (λ test.
        (other : Pred) → SpellsTest (view value.now) other → other ≡ test)) }
    ensures none { IfOk result (λ found. IfNone found (
        (test : Pred) → ¬ SpellsTest (view value.now) test)) }
{
    find_test(alloc, value)
}

fn find_test(alloc: Global, value: &Value) -> Result<Option<Pred>, NoMemory>
    ensures is { IfOk result (λ found. found ≡ test_of (view value.now)) }
    ensures texts { IfOk result
        (λ found. IfSome found (λ test. IsTrue (test_has_utf8_texts test))) }
{
    let Some((word, parts)) = word_and_parts(value) else {
        return Ok(None);
    };
    match parts {
        [] => Ok(None),
        [part] => match word {
            "not" => {
                let p = find_test(alloc, part)?;
                negated(alloc, p)
            }
            "isnull" => {
                let a = find_expr(alloc, part)?;
                Ok(tested_for_null(a))
            }
            _ => Ok(None),
        },
        [p, q] => match Connective::named(word) {
            Some(connective) => {
                let p = find_test(alloc, p)?;
                let q = find_test(alloc, q)?;
                connected(alloc, connective, p, q)
            }
            None => compared(alloc, word, p, q),
        },
        _ => Ok(None),
    }
}

fn negated(alloc: Global, p: Option<Pred>) -> Result<Option<Pred>, NoMemory>
    requires { IfSome p (λ test. IsTrue (test_has_utf8_texts test)) }
    ensures is { IfOk result (λ found. found ≡ option_map Not p) }
    ensures texts { IfOk result
        (λ found. IfSome found (λ test. IsTrue (test_has_utf8_texts test))) }
{
    match p {
        Some(p) => Ok(Some(Pred::Not(Boxed::new(alloc, p)?))),
        None => Ok(None),
    }
}

fn tested_for_null(a: Option<Expr>) -> Option<Pred>
    requires { IfSome a (λ expr. IsTrue (has_utf8_texts expr)) }
    ensures is { result ≡ option_map IsNull a }
    ensures texts { IfSome result (λ test. IsTrue (test_has_utf8_texts test)) }
{
    match a {
        Some(a) => Some(Pred::IsNull(a)),
        None => None,
    }
}

#[tactic(auto, unfolding(crate::specs::Reading::connection_of))]
fn connected(
    alloc: Global,
    connective: Connective,
    p: Option<Pred>,
    q: Option<Pred>,
) -> Result<Option<Pred>, NoMemory>
    requires p { IfSome p (λ test. IsTrue (test_has_utf8_texts test)) }
    requires q { IfSome q (λ test. IsTrue (test_has_utf8_texts test)) }
    ensures is { IfOk result (λ found. found ≡ connection_of connective p q) }
    ensures texts { IfOk result
        (λ found. IfSome found (λ test. IsTrue (test_has_utf8_texts test))) }
{
    let Some(p) = p else {
        return Ok(None);
    };
    let Some(q) = q else {
        return Ok(None);
    };
    Ok(Some(connective.connect(alloc, p, q)?))
}

#[tactic(auto, unfolding(crate::specs::Reading::comparison_of))]
fn compared(alloc: Global, word: &str, a: &Value, b: &Value) -> Result<Option<Pred>, NoMemory>
    ensures is { IfOk result (λ found. found
        ≡ comparison_of word.now (expr_of (view a.now)) (expr_of (view b.now))) }
    ensures texts { IfOk result
        (λ found. IfSome found (λ test. IsTrue (test_has_utf8_texts test))) }
{
    let Some(cmp) = comparison_named(word) else {
        return Ok(None);
    };
    let a = find_expr(alloc, a)?;
    let b = find_expr(alloc, b)?;
    match (a, b) {
        (Some(a), Some(b)) => Ok(Some(Pred::Test(cmp, a, b))),
        _ => Ok(None),
    }
}
