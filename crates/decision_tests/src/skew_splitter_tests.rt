ghost use Rattle.join_rewrite.specs.Sides.{side_repeats};
ghost use Rattle.std.specs.Bool.{OnTrue};
ghost use Rattle.std.specs.Prelude.{IfSome, IsTrue};

use crate::assignments::{Cells, grids, shown};
use join_rewrite::repeats;
use plan_model::JoinKind::{Anti, Full, Inner, Left, Right, Semi};
use plan_model::{JoinKind, Setting, Settings, Side};
use rect_cover::{CellSizes, Grid, Grids};
use skew_splitter::{are_join, decide_join};
use std::alloc::{AllocError, Global};
use std::test::Fail;
use std::time::Instant;

const M: u64 = u64::MAX;

const GIGA: u64 = 1_073_741_824;

// The target, and the least and the greatest number of subtasks; from which size and which percentage
// of the median on a column is skewed.
type Limits = (u64, u64, u64, u64, u64);

// How a join is decided: its kind, the side that is repeated, and the limits.
type Question = (JoinKind, Option<Side>, Limits);

// A question, the inputs, and the subtasks.
type Case = (Question, &'static [Cells], &'static str);

fn settings((target, min, max, skew_bytes, skew_percent): Limits) -> Settings {
    let mut settings = Settings::defaults();
    settings.set(Setting::TargetBytes, target);
    settings.set(Setting::MaxParallelism, max);
    settings.set(Setting::MinParallelism, min);
    settings.set(Setting::SkewBytes, skew_bytes);
    settings.set(Setting::SkewPercent, skew_percent);
    settings
}

fn may_repeat(kind: JoinKind, side: Option<Side>) -> bool
    ensures { OnTrue result (IfSome side (λ side. IsTrue (side_repeats kind side))) }
{
    match side {
        Some(side) => repeats(kind, side),
        None => true,
    }
}

fn decided(alloc: Global, asked: Question, inputs: &[Cells]) -> Result<String, AllocError> {
    let (kind, side, limits) = asked;
    let sizes = grids(alloc, inputs)?;
    if !are_join(&sizes) || !may_repeat(kind, side) {
        return format!(in alloc; "no join");
    }
    shown(
        alloc,
        &decide_join(alloc, kind, side, &sizes, &settings(limits))?,
    )
}

const SKEWED: &[Cells] = &[(3, 3, &[1, 30, 2, 1, 30, 2, 1, 30, 3]), (1, 3, &[4, 5, 6])];

const CUT: &str = "[(0,3,0,1)(0,1,1,2)][(0,1,0,2)]\n\
    [(1,2,1,2)][(0,1,1,2)]\n\
    [(2,3,1,2)(0,3,2,3)][(0,1,1,3)]\n";

const WHOLE: &str = "[(0,3,0,1)][(0,1,0,1)]\n\
    [(0,3,1,2)][(0,1,1,2)]\n\
    [(0,3,2,3)][(0,1,2,3)]\n";

const BOTH: &[Cells] = &[(2, 3, &[30, 1, 1, 30, 1, 1]), (2, 3, &[1, 1, 30, 1, 1, 30])];

const LEFTS: &str = "[(0,2,0,1)][(0,2,0,1)]\n\
    [(0,1,1,2)][(0,2,1,2)]\n\
    [(1,2,1,2)][(0,2,1,2)]\n\
    [(0,2,2,3)][(0,2,2,3)]\n";

const RIGHTS: &str = "[(0,2,0,1)][(0,2,0,1)]\n\
    [(0,2,1,2)][(0,1,1,2)]\n\
    [(0,2,1,2)][(1,2,1,2)]\n\
    [(0,2,2,3)][(0,2,2,3)]\n";

const LARGER: &[Cells] = &[(2, 3, &[1, 50, 1, 0, 50, 0]), (1, 3, &[200, 200, 200])];

const WHOLE_OF_TWO: &str = "[(0,2,0,1)][(0,1,0,1)]\n\
    [(0,2,1,2)][(0,1,1,2)]\n\
    [(0,2,2,3)][(0,1,2,3)]\n";

const FOUR: &[Cells] = &[
    (2, 4, &[5, 10, 50, 50, 5, 10, 50, 50]),
    (1, 4, &[0, 0, 0, 0]),
];

const CUT_IN_TWO: &str = "[(0,2,0,1)(0,1,1,2)][(0,1,0,2)]\n\
    [(1,2,1,2)(0,2,2,3)][(0,1,1,3)]\n";

const NINE: &[Cells] = &[(2, 3, &[0, 9, 0, 0, 9, 0]), (1, 3, &[0, 0, 0])];

const ONES: &[Cells] = &[(2, 3, &[1, 1, 1, 1, 1, 1]), (1, 3, &[0, 0, 0])];

const LARGE_SMALL: &[Cells] = &[
    (2, 2, &[5, 5, 9, 9]),
    (1, 2, &[1, 1]),
    (2, 3, &[1, 1, 1, 1, 1, 1]),
];

const SMALL_LARGE: &[Cells] = &[
    (1, 2, &[1, 1]),
    (2, 2, &[5, 5, 9, 9]),
    (2, 3, &[1, 1, 1, 1, 1, 1]),
];

const CASES: &[Case] = &[
    // Column 1 of the left side is skewed. It is cut where the kind lets the right side be repeated.
    ((Left, None, (40, 1, 3, 50, 400)), SKEWED, CUT),
    ((Semi, None, (40, 1, 3, 50, 400)), SKEWED, CUT),
    ((Anti, None, (40, 1, 3, 50, 400)), SKEWED, CUT),
    ((Inner, None, (40, 1, 3, 50, 400)), SKEWED, CUT),
    ((Right, None, (40, 1, 3, 50, 400)), SKEWED, WHOLE),
    ((Full, None, (40, 1, 3, 50, 400)), SKEWED, WHOLE),
    (
        (Left, None, (40, 1, 1, 50, 400)),
        SKEWED,
        "[(0,3,0,3)][(0,1,0,3)]\n",
    ),
    // The mirror: the skewed column is on the right. Each subtask reads all of the wide input.
    (
        (Right, None, (40, 1, 3, 50, 400)),
        &[
            (1, 3, &[4, 5, 6]),
            (3, 3, &[1, 30, 2, 1, 30, 2, 1, 30, 3]),
            (2, 1, &[7, 7]),
        ],
        "[(0,1,0,2)][(0,3,0,1)(0,1,1,2)][(0,2,0,1)]\n\
        [(0,1,1,2)][(1,2,1,2)][(0,2,0,1)]\n\
        [(0,1,1,3)][(2,3,1,2)(0,3,2,3)][(0,2,0,1)]\n",
    ),
    // The first column is cut on the left and the last on the right. What one subtask reads of a
    // column's pieces is one rect.
    (
        (Inner, None, (32, 1, 1, 50, 400)),
        BOTH,
        "[(0,2,0,3)][(0,2,0,3)]\n",
    ),
    (
        (Inner, None, (32, 1, 2, 50, 400)),
        BOTH,
        "[(0,2,0,2)][(0,2,0,2)]\n\
        [(0,2,2,3)][(0,2,2,3)]\n",
    ),
    (
        (Inner, None, (32, 1, 5, 50, 400)),
        BOTH,
        "[(0,1,0,1)][(0,2,0,1)]\n\
        [(1,2,0,1)][(0,2,0,1)]\n\
        [(0,2,1,2)][(0,2,1,2)]\n\
        [(0,2,2,3)][(0,1,2,3)]\n\
        [(0,2,2,3)][(1,2,2,3)]\n",
    ),
    // Both sides of column 1 are skewed. An inner join tries the larger one, at a tie the left.
    (
        (Inner, None, (60, 1, 8, 50, 400)),
        &[(2, 3, &[1, 50, 1, 0, 50, 0]), (2, 3, &[0, 50, 1, 1, 49, 0])],
        LEFTS,
    ),
    (
        (Inner, None, (60, 1, 8, 50, 400)),
        &[(2, 3, &[1, 50, 1, 0, 50, 0]), (2, 3, &[0, 50, 1, 1, 50, 0])],
        LEFTS,
    ),
    (
        (Inner, None, (60, 1, 8, 50, 400)),
        &[(2, 3, &[1, 50, 1, 0, 50, 0]), (2, 3, &[0, 50, 1, 1, 51, 0])],
        RIGHTS,
    ),
    (
        (Left, None, (60, 1, 8, 50, 400)),
        &[(2, 3, &[1, 50, 1, 0, 50, 0]), (2, 3, &[0, 50, 1, 1, 51, 0])],
        LEFTS,
    ),
    (
        (Right, None, (60, 1, 8, 50, 400)),
        &[(2, 3, &[1, 50, 1, 0, 50, 0]), (2, 3, &[0, 50, 1, 1, 50, 0])],
        RIGHTS,
    ),
    // The larger side of column 1 is not skewed, so an inner join leaves it whole.
    ((Inner, None, (60, 1, 8, 50, 400)), LARGER, WHOLE_OF_TWO),
    (
        (Left, None, (60, 1, 8, 50, 400)),
        LARGER,
        "[(0,2,0,1)][(0,1,0,1)]\n\
        [(0,1,1,2)][(0,1,1,2)]\n\
        [(1,2,1,2)][(0,1,1,2)]\n\
        [(0,2,2,3)][(0,1,2,3)]\n",
    ),
    // Of four sizes 10, 20, 100 and 100 the median is 20, so two columns are skewed.
    (
        (Left, None, (60, 1, 2, 50, 400)),
        FOUR,
        "[(0,2,0,3)][(0,1,0,3)]\n\
        [(0,2,3,4)][(0,1,3,4)]\n",
    ),
    (
        (Left, None, (60, 1, 3, 50, 400)),
        FOUR,
        "[(0,2,0,2)(0,1,2,3)][(0,1,0,3)]\n\
        [(1,2,2,3)(0,1,3,4)][(0,1,2,4)]\n\
        [(1,2,3,4)][(0,1,3,4)]\n",
    ),
    (
        (Left, None, (60, 1, 8, 50, 400)),
        FOUR,
        "[(0,2,0,2)][(0,1,0,2)]\n\
        [(0,1,2,3)][(0,1,2,3)]\n\
        [(1,2,2,3)][(0,1,2,3)]\n\
        [(0,1,3,4)][(0,1,3,4)]\n\
        [(1,2,3,4)][(0,1,3,4)]\n",
    ),
    // Sizes at the limits, of two producers and three columns on the left; the right has no bytes.
    (
        (Left, None, (1, 1, 3, 0, 100)),
        &[(2, 3, &[60, 60, 60, 60, 60, 60]), (1, 3, &[0, 0, 0])],
        WHOLE_OF_TWO,
    ),
    (
        (Left, None, (1, 3, 3, 0, 100)),
        &[(2, 3, &[0, 0, 0, 0, 0, 0]), (1, 3, &[0, 0, 0])],
        WHOLE_OF_TWO,
    ),
    (
        (Left, None, (9, 1, 4, 0, 10000)),
        &[(2, 3, &[0, 9, 0, 0, 9, 0]), (1, 3, &[0, 0, 0])],
        CUT_IN_TWO,
    ),
    (
        (Left, None, (9, 1, 4, 17, 10000)),
        &[(2, 3, &[0, 9, 0, 0, 9, 0]), (1, 3, &[0, 0, 0])],
        CUT_IN_TWO,
    ),
    (
        (Left, None, (17, 3, 3, 18, 100)),
        &[(2, 3, &[0, 9, 0, 0, 9, 0]), (1, 3, &[0, 0, 0])],
        WHOLE_OF_TWO,
    ),
    (
        (Left, None, (17, 1, 3, 0, 900)),
        &[(2, 3, &[1, 9, 1, 1, 9, 1]), (1, 3, &[0, 0, 0])],
        WHOLE_OF_TWO,
    ),
    (
        (Left, None, (GIGA, 1, 128, GIGA, 10000)),
        &[(2, 3, &[0, GIGA, 0, 0, 1, 0]), (1, 3, &[0, 0, 0])],
        CUT_IN_TWO,
    ),
    (
        (Left, None, (GIGA, 1, 1, GIGA, 10000)),
        &[(2, 3, &[0, GIGA, 0, 0, 0, 0]), (1, 3, &[0, 0, 0])],
        "[(0,2,0,3)][(0,1,0,3)]\n",
    ),
    // One producer's column is one piece, a lone column is never skewed, and pieces differ in size.
    (
        (Semi, None, (40, 1, 3, 50, 400)),
        &[(1, 3, &[1, 90, 2]), (1, 3, &[1, 1, 1])],
        "[(0,1,0,1)][(0,1,0,1)]\n\
        [(0,1,1,2)][(0,1,1,2)]\n\
        [(0,1,2,3)][(0,1,2,3)]\n",
    ),
    (
        (Left, None, (10, 1, 8, 0, 100)),
        &[(2, 1, &[50, 50]), (1, 1, &[1])],
        "[(0,2,0,1)][(0,1,0,1)]\n",
    ),
    (
        (Left, None, (25, 1, 8, 50, 400)),
        &[
            (5, 3, &[0, 10, 0, 0, 10, 0, 0, 30, 0, 0, 5, 0, 0, 5, 0]),
            (1, 3, &[1, 1, 1]),
        ],
        "[(0,5,0,1)(0,2,1,2)][(0,1,0,2)]\n\
        [(2,3,1,2)][(0,1,1,2)]\n\
        [(3,5,1,2)(0,5,2,3)][(0,1,1,3)]\n",
    ),
    (
        (Anti, None, (1, 128, 128, 0, 100)),
        &[(2, 2, &[1, 1, 0, 1]), (1, 2, &[0, 0])],
        "[(0,2,0,1)][(0,1,0,1)]\n\
        [(0,1,1,2)][(0,1,1,2)]\n\
        [(1,2,1,2)][(0,1,1,2)]\n",
    ),
    // Items are spread by their number where the target gives fewer groups than are wanted.
    (
        (Left, None, (9, 3, 4, 0, 10000)),
        NINE,
        "[(0,2,0,1)][(0,1,0,1)]\n\
        [(0,1,1,2)][(0,1,1,2)]\n\
        [(1,2,1,2)(0,2,2,3)][(0,1,1,3)]\n",
    ),
    (
        (Left, None, (9, 4, 4, 0, 10000)),
        NINE,
        "[(0,2,0,1)][(0,1,0,1)]\n\
        [(0,1,1,2)][(0,1,1,2)]\n\
        [(1,2,1,2)][(0,1,1,2)]\n\
        [(0,2,2,3)][(0,1,2,3)]\n",
    ),
    (
        (Full, None, (1000, 1, 8, 0, 100)),
        ONES,
        "[(0,2,0,3)][(0,1,0,3)]\n",
    ),
    (
        (Full, None, (1000, 2, 8, 0, 100)),
        ONES,
        "[(0,2,0,1)][(0,1,0,1)]\n\
        [(0,2,1,3)][(0,1,1,3)]\n",
    ),
    ((Full, None, (1000, 8, 8, 0, 100)), ONES, WHOLE_OF_TWO),
    // A sum past 64 bits counts as their greatest number: of a column, and of an item.
    (
        (Left, None, (1, 1, 8, 0, 100)),
        &[(2, 3, &[M, M, M, 0, M, 0]), (1, 3, &[0, 0, 0])],
        WHOLE_OF_TWO,
    ),
    (
        (Full, None, (1, 1, 2, 0, 400)),
        &[(1, 3, &[M, 1, M]), (1, 3, &[M, 0, 0])],
        "[(0,1,0,2)][(0,1,0,2)]\n\
        [(0,1,2,3)][(0,1,2,3)]\n",
    ),
    (
        (Left, None, (1, 1, 4, 0, 400)),
        &[(2, 2, &[M, 0, M, 0]), (1, 2, &[5, 5])],
        "[(0,1,0,1)][(0,1,0,1)]\n\
        [(1,2,0,1)][(0,1,0,1)]\n\
        [(0,2,1,2)][(0,1,1,2)]\n",
    ),
    // The producers of one side are shared, and the other side is read whole, as is a wide input.
    (
        (Left, Some(Side::Right), (10, 1, 4, 0, 100)),
        LARGE_SMALL,
        "[(0,1,0,2)][(0,1,0,2)][(0,2,0,3)]\n\
        [(1,2,0,2)][(0,1,0,2)][(0,2,0,3)]\n",
    ),
    (
        (Right, Some(Side::Left), (10, 1, 4, 0, 100)),
        SMALL_LARGE,
        "[(0,1,0,2)][(0,1,0,2)][(0,2,0,3)]\n\
        [(0,1,0,2)][(1,2,0,2)][(0,2,0,3)]\n",
    ),
    (
        (Inner, Some(Side::Left), (28, 1, 4, 0, 100)),
        SMALL_LARGE,
        "[(0,1,0,2)][(0,2,0,2)][(0,2,0,3)]\n",
    ),
    (
        (Semi, Some(Side::Right), (28, 4, 4, 0, 100)),
        LARGE_SMALL,
        "[(0,1,0,2)][(0,1,0,2)][(0,2,0,3)]\n\
        [(1,2,0,2)][(0,1,0,2)][(0,2,0,3)]\n",
    ),
    (
        (Inner, Some(Side::Right), (1, 1, 4, 0, 100)),
        SMALL_LARGE,
        "[(0,1,0,2)][(0,2,0,2)][(0,2,0,3)]\n",
    ),
];

#[test]
fn decides_joins(rt: HostRuntime) -> Result<(), Fail> {
    for (asked, inputs, subtasks) in CASES {
        let text = decided(rt.alloc(), *asked, inputs)?;
        assert_eq!(rt; text.as_str(), *subtasks);
    }
    Ok(())
}

// 128 columns of 65,536 producers on each side, of which column 7 is skewed on the left.
fn many_producers(alloc: Global) -> Result<Grids, AllocError> {
    let left = (0..65_536 * 128usize)
        .map(|cell| if cell % 128 == 7 { 100_000 } else { 1000 })
        .collect(alloc)?;
    let mut grids = Vec::new(alloc);
    for sizes in [left, vec![in alloc; 1000; 65_536 * 128]?] {
        grids.push(Grid {
            producers: 65_536,
            cells: 128,
            sizes: CellSizes::from_vec(sizes),
        })?;
    }
    Ok(Grids::from_vec(grids))
}

// A large join is decided within a second: prints the milliseconds. Column 7 is cut in 7; column
// 0 to 6 are one subtask, the pieces but the last one each, the last with 6 columns, and the other
// 114 columns are 15.
#[test]
fn decides_a_large_join(rt: HostRuntime) -> Result<(), Fail> {
    let alloc = rt.alloc();
    let sizes = many_producers(alloc)?;
    assert!(rt; are_join(&sizes));
    if are_join(&sizes) {
        let start = Instant::now(&rt)?;
        let settings = settings((1 << 30, 1, 128, 16_777_216, 400));
        let assignment = decide_join(alloc, Left, None, &sizes, &settings)?;
        println!(rt; "{} ms", start.elapsed(&rt)?.as_millis())?;
        assert_eq!(rt; assignment.as_slice().len(), 23);
    }
    Ok(())
}
