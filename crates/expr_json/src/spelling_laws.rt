//! What holds of each spelling. These calls do nothing: a caller's proof has their clauses.
ghost use Rattle.std.specs.Prelude.{◌≡◌, IsTrue, false};
ghost use Rattle.serde_json.specs.Data.{depth};
ghost use Rattle.serde_json.specs.Written.{has_float};
ghost use Rattle.row_core.specs.declared.expr.Expr.{Expr};
ghost use Rattle.row_core.specs.declared.pred.Pred.{Pred};
ghost use Rattle.expr_json.specs.BadNumbers.{bad_number_in};
ghost use Rattle.expr_json.specs.Depths.{list_depth, expr_depth, test_depth};
ghost use Rattle.expr_json.specs.Ranges.{in_range, test_in_range};
ghost use Rattle.expr_json.specs.Spelling.{expr_value, test_value};

/// The spelling of an expression is as deep as the expression, has no bad number and no float, and
/// is no other expression's.
pub fn expr_laws()
    ensures lists { (expr : Expr) → list_depth (expr_value expr) ≡ expr_depth expr }
    ensures nests { (expr : Expr) → depth (expr_value expr) ≡ expr_depth expr }
    ensures numbers { (expr : Expr) → IsTrue (in_range expr)
        → bad_number_in (expr_value expr) ≡ false }
    ensures floats { (expr : Expr) → has_float (expr_value expr) ≡ false }
    ensures once { (a b : Expr) → IsTrue (in_range a) → IsTrue (in_range b)
        → expr_value a ≡ expr_value b → a ≡ b }
{}

/// The same of tests.
pub fn test_laws()
    ensures lists { (test : Pred) → list_depth (test_value test) ≡ test_depth test }
    ensures nests { (test : Pred) → depth (test_value test) ≡ test_depth test }
    ensures numbers { (test : Pred) → IsTrue (test_in_range test)
        → bad_number_in (test_value test) ≡ false }
    ensures floats { (test : Pred) → has_float (test_value test) ≡ false }
    ensures once { (p q : Pred) → IsTrue (test_in_range p) → IsTrue (test_in_range q)
        → test_value p ≡ test_value q → p ≡ q }
{}
