use plan_model::{JoinKind, PlanError};
use plan_text::{check_text, plan_text};
use row_core::Bytes;
use std::alloc::Global;
use std::test::Fail;
use test_plans::{Short, ShortNode, accepted, plan};

// What is printed of a plan: the texts of `check` and of `plan`, one after the other.
fn printed(alloc: Global, nodes: &[ShortNode]) -> Result<Bytes, PlanError> {
    let good = accepted(alloc, plan(alloc, nodes)?)?;
    let mut text = check_text(alloc, &good)?;
    let lines = plan_text(alloc, &good)?;
    text.extend(lines.as_slice())?;
    Ok(text)
}

struct Shown {
    nodes: &'static [ShortNode],
    text: &'static str,
}

const FILTERED: &[ShortNode] = &[
    (Short::Source(3), &[], false),
    (Short::Filter(2), &[0], false),
    (Short::Sink("out"), &[1], false),
];

const REBALANCED: &[ShortNode] = &[
    (Short::Source(1), &[], false),
    (Short::Filter(0), &[0], true),
    (Short::Sink("out"), &[1], false),
];

const GENERATED: &[ShortNode] = &[
    (Short::Source(3), &[], false),
    (Short::Filter(2), &[0], false),
    (Short::Source(2), &[], false),
    (Short::Join(JoinKind::Inner, &[(1, 0)]), &[1, 2], false),
    (Short::Aggregate(&[4], 2), &[3], false),
    (Short::Sink("totals"), &[4], false),
];

const DAILY: &[ShortNode] = &[
    (Short::Source(3), &[], false),
    (Short::Filter(2), &[0], false),
    (Short::Project(&[1, 2]), &[1], false),
    (Short::Source(2), &[], false),
    (Short::Join(JoinKind::Left, &[(0, 0)]), &[2, 3], false),
    (Short::Aggregate(&[3], 2), &[4], false),
    (Short::Sink("totals"), &[5], false),
    (Short::Aggregate(&[0], 1), &[2], false),
    (Short::Sink("largest"), &[7], false),
];

// A source with four consumers, a union that takes it twice and a filter spread anew, and a
// distinct that a sink and a join with itself take.
const SHARED: &[ShortNode] = &[
    (Short::Source(2), &[], false),
    (Short::Filter(0), &[0], false),
    (Short::Filter(1), &[0], true),
    (Short::Union, &[0, 2, 0], false),
    (Short::Distinct, &[3], false),
    (
        Short::Join(JoinKind::Full, &[(0, 1), (1, 1)]),
        &[4, 4],
        false,
    ),
    (Short::Sink("pairs"), &[5], true),
    (Short::Sink("kept"), &[1], false),
    (Short::Sink("once"), &[4], false),
];

const SHOWN: &[Shown] = &[
    Shown {
        nodes: FILTERED,
        text: "ok nodes=3 sinks=1\n\
            vertex 0 nodes=0,1,2 in=files out=sink\n",
    },
    Shown {
        nodes: REBALANCED,
        text: "ok nodes=3 sinks=1\n\
            vertex 0 nodes=0 in=files out=1:rebalance\n\
            vertex 1 nodes=1,2 in=0:rebalance out=sink\n",
    },
    Shown {
        nodes: GENERATED,
        text: "ok nodes=6 sinks=1\n\
            vertex 0 nodes=0,1 in=files out=3:hash\n\
            vertex 1 nodes=2 in=files out=3:hash\n\
            vertex 2 nodes=3 in=1:hash,2:hash out=4:hash\n\
            vertex 3 nodes=4,5 in=3:hash out=sink\n",
    },
    Shown {
        nodes: DAILY,
        text: "ok nodes=9 sinks=2\n\
            vertex 0 nodes=0,1,2 in=files out=4:hash,7:hash\n\
            vertex 1 nodes=3 in=files out=4:hash\n\
            vertex 2 nodes=7,8 in=2:hash out=sink\n\
            vertex 3 nodes=4 in=2:hash,3:hash out=5:hash\n\
            vertex 4 nodes=5,6 in=4:hash out=sink\n",
    },
    Shown {
        nodes: SHARED,
        text: "ok nodes=9 sinks=3\n\
            vertex 0 nodes=0 in=files out=1:forward,2:rebalance,3:rebalance,3:rebalance\n\
            vertex 1 nodes=1,7 in=0:forward out=sink\n\
            vertex 2 nodes=2 in=0:rebalance out=3:rebalance\n\
            vertex 3 nodes=3 in=0:rebalance,2:rebalance,0:rebalance out=4:hash\n\
            vertex 4 nodes=4 in=3:hash out=5:hash,5:hash,8:forward\n\
            vertex 5 nodes=5 in=4:hash,4:hash out=6:rebalance\n\
            vertex 6 nodes=8 in=4:forward out=sink\n\
            vertex 7 nodes=6 in=5:rebalance out=sink\n",
    },
];

#[test]
fn texts_of_plans(rt: HostRuntime) -> Result<(), Fail> {
    for shown in SHOWN {
        let text = printed(rt.alloc(), shown.nodes)?;
        assert_eq!(rt; text.as_slice(), shown.text.as_bytes());
    }
    Ok(())
}
