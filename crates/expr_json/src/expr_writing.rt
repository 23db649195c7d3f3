ghost use Rattle.std.specs.Prelude.{◌≡◌, IfOk, IsTrue};
ghost use Rattle.serde_json.specs.View.{view};
ghost use Rattle.expr_json.specs.Ranges.{has_utf8_texts};
ghost use Rattle.expr_json.specs.Spelling.{expr_value};

use crate::form::{form_of_one, form_of_two};
use crate::leaf::write_literal;
use row_core::{Expr, NoMemory};
use serde_json::Value;
use std::alloc::Global;

/// The value that spells the expression. Texts in JSON are UTF-8.
pub fn write_expr(alloc: Global, expr: &Expr) -> Result<Value, NoMemory>
    requires { IsTrue (has_utf8_texts expr.now) }
    ensures { IfOk result (λ value. view value ≡ expr_value expr.now) }
{
    let (word, a, b) = match expr {
        Expr::Col(column) => return form_of_one(alloc, "col", Value::from(*column)),
        Expr::Const(literal) => return write_literal(alloc, literal),
        Expr::Add(a, b) => ("add", a, b),
        Expr::Sub(a, b) => ("sub", a, b),
        Expr::Mul(a, b) => ("mul", a, b),
        Expr::Concat(a, b) => ("concat", a, b),
    };
    let a = write_expr(alloc, a.get())?;
    let b = write_expr(alloc, b.get())?;
    form_of_two(alloc, word, a, b)
}
