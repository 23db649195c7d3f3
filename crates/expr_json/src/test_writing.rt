ghost use Rattle.std.specs.Prelude.{◌≡◌, IfOk, IsTrue};
ghost use Rattle.serde_json.specs.View.{view};
ghost use Rattle.expr_json.specs.Ranges.{test_has_utf8_texts};
ghost use Rattle.expr_json.specs.Spelling.{test_value};

use crate::comparison::comparison_word;
use crate::expr_writing::write_expr;
use crate::form::{form_of_one, form_of_two};
use row_core::{NoMemory, Pred};
use serde_json::Value;
use std::alloc::Global;

/// The value that spells the test. Texts in JSON are UTF-8.
pub fn write_test(alloc: Global, test: &Pred) -> Result<Value, NoMemory>
    requires { IsTrue (test_has_utf8_texts test.now) }
    ensures { IfOk result (λ value. view value ≡ test_value test.now) }
{
    match test {
        Pred::Test(cmp, a, b) => {
            let a = write_expr(alloc, a)?;
            let b = write_expr(alloc, b)?;
            form_of_two(alloc, comparison_word(*cmp), a, b)
        }
        Pred::IsNull(a) => form_of_one(alloc, "isnull", write_expr(alloc, a)?),
        Pred::And(p, q) => {
            let p = write_test(alloc, p.get())?;
            let q = write_test(alloc, q.get())?;
            form_of_two(alloc, "and", p, q)
        }
        Pred::Or(p, q) => {
            let p = write_test(alloc, p.get())?;
            let q = write_test(alloc, q.get())?;
            form_of_two(alloc, "or", p, q)
        }
        Pred::Not(p) => form_of_one(alloc, "not", write_test(alloc, p.get())?),
    }
}
