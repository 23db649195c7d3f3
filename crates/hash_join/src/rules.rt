ghost use Rattle.std.specs.Prelude.{◌≡◌};
ghost use Rattle.hash_join.specs.Rules.{rule_of};

use plan_model::{JoinKind, Side};

/// What a probe row gives with its matches on the build side.
#[derive(Clone, Copy, Debug, PartialEq, Eq)]
pub enum Rule {
    /// A row for each match.
    Pairs,
    /// A row for each match, or one with Nulls where there is none.
    PairsOrPadded,
    /// One row with Nulls where there is no match.
    PaddedIfUnmatched,
    /// The row itself, once, where there is a match.
    RowIfMatched,
    /// The row itself where there is no match.
    RowIfUnmatched,
}

/// What the rows of a side give in a join of this kind. In a full join the left rows give all rows but
/// those of the right rows without a match, and the right rows give these.
pub fn rule_of(kind: JoinKind, side: Side) -> Rule
    ensures { result ≡ rule_of kind side }
{
    match (kind, side) {
        (JoinKind::Inner, _) => Rule::Pairs,
        (JoinKind::Full, Side::Right) => Rule::PaddedIfUnmatched,
        (JoinKind::Semi, _) => Rule::RowIfMatched,
        (JoinKind::Anti, _) => Rule::RowIfUnmatched,
        _ => Rule::PairsOrPadded,
    }
}
