ghost use Rattle.std.specs.Prelude.{◌≡◌, IfOk, IsTrue};
ghost use Rattle.expr_json.specs.Ranges.{has_utf8_texts};
ghost use Rattle.expr_json.specs.Reading.{operator_of, applied};

use row_core::{Expr, NoMemory};
use sqlite_items::Boxed;
use std::alloc::Global;

// An operation on two expressions.
#[derive(Clone, Copy)]
pub enum Operator {
    Add,
    Sub,
    Mul,
    Concat,
}

impl Operator {
    #[tactic(auto, unfolding(crate::specs::Reading::operator_of))]
    pub fn named(word: &str) -> Option<Operator>
        ensures { result ≡ operator_of word.now }
    {
        match word {
            "add" => Some(Operator::Add),
            "sub" => Some(Operator::Sub),
            "mul" => Some(Operator::Mul),
            "concat" => Some(Operator::Concat),
            _ => None,
        }
    }

    pub fn apply(self, alloc: Global, a: Expr, b: Expr) -> Result<Expr, NoMemory>
        requires a { IsTrue (has_utf8_texts a) }
        requires b { IsTrue (has_utf8_texts b) }
        ensures is { IfOk result (λ expr. expr ≡ applied self a b) }
        ensures texts { IfOk result (λ expr. IsTrue (has_utf8_texts expr)) }
    {
        let a = Boxed::new(alloc, a)?;
        let b = Boxed::new(alloc, b)?;
        Ok(match self {
            Operator::Add => Expr::Add(a, b),
            Operator::Sub => Expr::Sub(a, b),
            Operator::Mul => Expr::Mul(a, b),
            Operator::Concat => Expr::Concat(a, b),
        })
    }
}
