ghost use Rattle.std.specs.Prelude.{◌≡◌, IfOk, IsTrue};
ghost use Rattle.expr_json.specs.Ranges.{test_has_utf8_texts};
ghost use Rattle.expr_json.specs.Reading.{connective_of, connected};

use row_core::{NoMemory, Pred};
use sqlite_items::Boxed;
use std::alloc::Global;

// What joins two tests.
#[derive(Clone, Copy)]
pub enum Connective {
    And,
    Or,
}

impl Connective {
    #[tactic(auto, unfolding(crate::specs::Reading::connective_of))]
    pub fn named(word: &str) -> Option<Connective>
        ensures { result ≡ connective_of word.now }
    {
        match word {
            "and" => Some(Connective::And),
            "or" => Some(Connective::Or),
            _ => None,
        }
    }

    pub fn connect(self, alloc: Global, p: Pred, q: Pred) -> Result<Pred, NoMemory>
        requires p { IsTrue (test_has_utf8_texts p) }
        requires q { IsTrue (test_has_utf8_texts q) }
        ensures is { IfOk result (λ test. test ≡ connected self p q) }
        ensures texts { IfOk result (λ test. IsTrue (test_has_utf8_texts test)) }
    {
        let p = Boxed::new(alloc, p)?;
        let q = Boxed::new(alloc, q)?;
        Ok(match self {
            Connective::And => Pred::And(p, q),
            Connective::Or => Pred::Or(p, q),
        })
    }
}
