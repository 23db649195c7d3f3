use join_rewrite::choose_side;
use plan_model::JoinKind::{Anti, Full, Inner, Left, Right, Semi};
use plan_model::{JoinKind, Side};
use std::test::Fail;

// Kind, sizes of both sides, the limit, and the side that is chosen.
const CHOICES: &[(JoinKind, Option<u64>, Option<u64>, u64, Option<Side>)] = &[
    (Inner, Some(100), Some(101), 100, Some(Side::Left)),
    (Inner, Some(101), Some(100), 100, Some(Side::Right)),
    (Inner, Some(100), Some(100), 100, Some(Side::Right)),
    (Inner, Some(99), Some(100), 100, Some(Side::Left)),
    (Inner, Some(101), Some(101), 100, None),
    (Inner, None, Some(7), 100, Some(Side::Right)),
    (Inner, Some(7), None, 100, Some(Side::Left)),
    (Left, Some(50), Some(101), 100, None),
    (Semi, Some(1), Some(2), 100, Some(Side::Right)),
    (Anti, Some(0), None, 100, None),
    (Right, Some(2), Some(1), 100, Some(Side::Left)),
    (Full, Some(1), Some(1), 100, None),
    (Left, Some(9), Some(0), 0, Some(Side::Right)),
    (Left, Some(9), Some(1), 0, None),
];

#[test]
fn chooses_the_side(rt: HostRuntime) -> Result<(), Fail> {
    for (kind, left, right, limit, side) in CHOICES {
        assert_eq!(rt; choose_side(*kind, *left, *right, *limit), *side);
    }
    Ok(())
}
