ghost use Rattle.std.specs.Prelude.{◌≡◌, IfSome, IsTrue};
ghost use Rattle.join_rewrite.specs.Sides.{side_chosen, side_repeats, side_smaller};

use plan_model::{JoinKind, Side};

/// The side of a join that each subtask reads whole: of those that may be repeated, with a size in
/// bytes that is known and at most `limit`, the smaller one, and at a tie the right. None where
/// there is no such side.
pub fn choose_side(
    kind: JoinKind,
    left: Option<u64>,
    right: Option<u64>,
    limit: u64,
) -> Option<Side>
    ensures chosen { result ≡ side_chosen kind left right limit }
    ensures repeated { IfSome result (λ side. IsTrue (side_repeats kind side)) }
{
    let left = left.filter(|size| repeats(kind, Side::Left) && *size <= limit);
    let right = right.filter(|size| repeats(kind, Side::Right) && *size <= limit);
    match (left, right) {
        (None, None) => None,
        (Some(_), None) => Some(Side::Left),
        (None, Some(_)) => Some(Side::Right),
        (Some(left), Some(right)) => Some(smaller(left, right)),
    }
}

/// Whether this side of the join may be repeated, since each row of the other side gives its rows
/// by itself.
pub fn repeats(kind: JoinKind, side: Side) -> bool
    ensures { result ≡ side_repeats kind side }
{
    match side {
        Side::Left => matches!(kind, JoinKind::Inner | JoinKind::Right),
        Side::Right => kind.repeats_right(),
    }
}

fn smaller(left: u64, right: u64) -> Side
    ensures { result ≡ side_smaller left right }
{
    if left < right {
        Side::Left
    } else {
        Side::Right
    }
}
