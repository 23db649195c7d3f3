//! The words of comparisons.
ghost use Rattle.std.specs.Prelude.{◌≡◌};
ghost use Rattle.expr_json.specs.Reading.{cmp_of};
ghost use Rattle.expr_json.specs.Spelling.{cmp_word};

use row_core::Cmp;

#[tactic(auto, unfolding(crate::specs::Reading::cmp_of))]
pub fn comparison_named(word: &str) -> Option<Cmp>
    ensures { result ≡ cmp_of word.now }
{
    match word {
        "eq" => Some(Cmp::Eq),
        "ne" => Some(Cmp::Ne),
        "lt" => Some(Cmp::Lt),
        "le" => Some(Cmp::Le),
        "gt" => Some(Cmp::Gt),
        "ge" => Some(Cmp::Ge),
        _ => None,
    }
}

pub fn comparison_word(cmp: Cmp) -> &'static str
    ensures { result.now ≡ cmp_word cmp }
{
    match cmp {
        Cmp::Eq => "eq",
        Cmp::Ne => "ne",
        Cmp::Lt => "lt",
        Cmp::Le => "le",
        Cmp::Gt => "gt",
        Cmp::Ge => "ge",
    }
}
