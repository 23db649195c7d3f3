ghost use Rattle.std.specs.Prelude.{◌≡◌, ℕ, List, IsTrue};
ghost use Rattle.bag_laws.specs.Rows.{OneRow};
ghost use Rattle.plan_model.specs.Joins.{joined, matches, nulls};
ghost use Rattle.plan_model.specs.Operators.{repeats_right};
ghost use Rattle.op_join.specs.Sides.{outputs};

use plan_model::JoinKind;

/// What a probe row gives with its matches on the other side.
#[derive(Clone, Copy, Debug, PartialEq, Eq)]
pub enum Rule {
    /// The row before each match.
    Pairs,
    /// The row before each match, or before Nulls where there is none.
    PairsOrPadded,
    /// The row behind each match, or behind Nulls where there is none.
    MirroredOrPadded,
    /// The row behind Nulls where there is no match.
    PaddedIfUnmatched,
    /// The row, once, where there is a match.
    RowIfMatched,
    /// The row where there is no match.
    RowIfUnmatched,
}

/// What each left row gives, in a join that goes by its left rows.
pub fn left_rule(kind: JoinKind) -> Rule
    requires { IsTrue (repeats_right kind) }
    ensures { (keys : List (ℕ × ℕ)) (left_width right_width : ℕ) (left right : List OneRow)
        → outputs result (nulls right_width) (matches keys) left right
        ≡ joined keys left_width right_width left right kind }
{
    match kind {
        JoinKind::Inner => Rule::Pairs,
        JoinKind::Left => Rule::PairsOrPadded,
        JoinKind::Semi => Rule::RowIfMatched,
        JoinKind::Anti => Rule::RowIfUnmatched,
        JoinKind::Right | JoinKind::Full => unreachable!(),
    }
}
