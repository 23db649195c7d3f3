use crate::assignments::{Cells, grids, shown};
use parallelism_decider::{decide, has_shape};
use plan_model::{PlanError, Setting, Settings, Ship};
use rect_cover::{CellSizes, Grid, Grids};
use std::alloc::{AllocError, Global};
use std::test::Fail;
use std::time::Instant;
use test_plans::{Short, ShortNode, accepted, plan};
use vertex_builder::{
    NodeList, NodeSet, Vertex, VertexInput, VertexInputs, VertexOutputs, Vertices, Widenings,
    makeable,
};

const M: u64 = u64::MAX;

// The target, and the least and the greatest number of subtasks.
type Limits = (u64, u64, u64);

fn settings((target, min, max): Limits) -> Settings {
    let mut settings = Settings::defaults();
    settings.set(Setting::TargetBytes, target);
    settings.set(Setting::MaxParallelism, max);
    settings.set(Setting::MinParallelism, min);
    settings
}

fn decided(
    alloc: Global,
    vertex: &Vertex,
    inputs: &[Cells],
    limits: Limits,
) -> Result<String, AllocError> {
    let sizes = grids(alloc, inputs)?;
    if !has_shape(vertex, &sizes) {
        return format!(in alloc; "no shape");
    }
    shown(alloc, &decide(alloc, vertex, &sizes, &settings(limits))?)
}

// ---- the heads of a plan

// A source whose rows four nodes take, and a head of each kind but a join.
const PLAN: &[ShortNode] = &[
    (Short::Source(1), &[], false),
    (Short::Filter(0), &[0], false),
    (Short::Filter(0), &[0], true),
    (Short::Union, &[1, 2], false),
    (Short::Aggregate(&[0], 1), &[0], false),
    (Short::Distinct, &[3], false),
    (Short::Sink("a"), &[4], false),
    (Short::Sink("b"), &[5], false),
    (Short::Sink("c"), &[0], false),
];

// The inputs of each vertex, in order of their heads, and its subtasks at a target of 10 bytes and
// up to three subtasks.
const HEADS: &[(&[Cells], &str)] = &[
    // the files of a source
    (&[(3, 1, &[4, 6, 3])], "[(0,2,0,1)]\n[(2,3,0,1)]\n"),
    // the producers of a filter's input
    (&[(3, 1, &[11, 1, 9])], "[(0,1,0,1)]\n[(1,3,0,1)]\n"),
    // columns of 10, 3 and 10 bytes, spread anew
    (
        &[(2, 3, &[5, 1, 2, 5, 2, 8])],
        "[(0,2,0,1)]\n[(0,2,1,2)]\n[(0,2,2,3)]\n",
    ),
    // columns of 9, 3 and 3 bytes over both inputs of a union
    (
        &[(1, 3, &[1, 1, 1]), (2, 3, &[1, 1, 1, 7, 1, 1])],
        "[(0,1,0,1)][(0,2,0,1)]\n[(0,1,1,3)][(0,2,1,3)]\n",
    ),
    // columns by the hash of an aggregate's keys
    (&[(1, 3, &[20, 0, 1])], "[(0,1,0,1)]\n[(0,1,1,3)]\n"),
    // and of a distinct's rows
    (&[(2, 3, &[0, 0, 0, 0, 0, 0])], "[(0,2,0,3)]\n"),
    // the producers of a sink's input
    (&[(2, 1, &[10, 10])], "[(0,1,0,1)]\n[(1,2,0,1)]\n"),
];

fn vertices(alloc: Global) -> Result<Vertices, PlanError> {
    let good = accepted(alloc, plan(alloc, PLAN)?)?;
    let made = NodeSet::from_vec(Vec::new(alloc));
    let complete = NodeSet::from_vec([0, 1, 2, 3, 4, 5].to_vec(alloc)?);
    let widened = Widenings::from_vec(Vec::new(alloc));
    let settings = Settings::defaults();
    Ok(makeable(alloc, &good, &made, &complete, &widened, &settings)?)
}

#[test]
fn decides_each_head_of_a_plan(rt: HostRuntime) -> Result<(), Fail> {
    let vertices = vertices(rt.alloc())?;
    assert_eq!(rt; vertices.as_slice().len(), HEADS.len());
    for (vertex, (inputs, subtasks)) in vertices.as_slice().iter().zip(HEADS) {
        let text = decided(rt.alloc(), vertex, inputs, (10, 1, 3))?;
        assert_eq!(rt; text.as_str(), *subtasks);
    }
    Ok(())
}

// ---- limits, and wide inputs

// Whether rows go forward to the head, how many inputs are the head's, the inputs, the limits, and
// the subtasks.
const CASES: &[(bool, u32, &[Cells], Limits, &str)] = &[
    // no files, and one without bytes
    (true, 1, &[(0, 1, &[])], (10, 1, 16), "[]\n"),
    (true, 1, &[(1, 1, &[0])], (10, 1, 16), "[(0,1,0,1)]\n"),
    // too many for one subtask, as many as fit, and as many as are wanted
    (
        true,
        1,
        &[(4, 1, &[5, 5, 5, 5])],
        (10, 1, 1),
        "[(0,4,0,1)]\n",
    ),
    (
        true,
        1,
        &[(4, 1, &[5, 5, 5, 5])],
        (10, 1, 4),
        "[(0,2,0,1)]\n[(2,4,0,1)]\n",
    ),
    (
        true,
        1,
        &[(4, 1, &[5, 5, 5, 5])],
        (10, 3, 4),
        "[(0,1,0,1)]\n[(1,2,0,1)]\n[(2,4,0,1)]\n",
    ),
    // the limit that three subtasks need gives two
    (
        true,
        1,
        &[(4, 1, &[1, 1, 1, 1])],
        (1, 3, 3),
        "[(0,2,0,1)]\n[(2,4,0,1)]\n",
    ),
    // more are wanted than there are files
    (
        true,
        1,
        &[(2, 1, &[0, 0])],
        (1, 128, 128),
        "[(0,1,0,1)]\n[(1,2,0,1)]\n",
    ),
    // the files of generated orders
    (
        true,
        1,
        &[(4, 1, &[2114, 2226, 2224, 2226])],
        (4096, 1, 8),
        "[(0,1,0,1)]\n[(1,2,0,1)]\n[(2,3,0,1)]\n[(3,4,0,1)]\n",
    ),
    // two rows, of 11 bytes each
    (
        false,
        1,
        &[(1, 2, &[11, 11])],
        (11, 1, 2),
        "[(0,1,0,1)]\n[(0,1,1,2)]\n",
    ),
    // a full group, all in one, and columns without bytes beside one that is too large
    (
        false,
        1,
        &[(1, 3, &[4, 5, 6])],
        (9, 1, 3),
        "[(0,1,0,2)]\n[(0,1,2,3)]\n",
    ),
    (false, 1, &[(1, 3, &[4, 5, 6])], (9, 1, 1), "[(0,1,0,3)]\n"),
    (
        false,
        1,
        &[(1, 3, &[0, 9, 0])],
        (1, 1, 3),
        "[(0,1,0,1)]\n[(0,1,1,2)]\n[(0,1,2,3)]\n",
    ),
    // the first column counts as no larger than the others
    (
        false,
        1,
        &[(2, 3, &[M, M, M, M, 0, 0])],
        (1, 1, 2),
        "[(0,2,0,2)]\n[(0,2,2,3)]\n",
    ),
    // wide inputs: of a source without files, of a filter, of a union
    (
        true,
        1,
        &[(0, 1, &[]), (2, 3, &[9, 9, 9, 9, 9, 9])],
        (10, 4, 16),
        "[][(0,2,0,3)]\n",
    ),
    (
        true,
        1,
        &[(2, 1, &[7, 7]), (1, 2, &[90, 90]), (3, 1, &[0, 0, 90])],
        (7, 1, 4),
        "[(0,1,0,1)][(0,1,0,2)][(0,3,0,1)]\n[(1,2,0,1)][(0,1,0,2)][(0,3,0,1)]\n",
    ),
    (
        false,
        2,
        &[(1, 2, &[3, 3]), (2, 2, &[1, 9, 1, 9]), (2, 1, &[70, 80])],
        (10, 1, 4),
        "[(0,1,0,1)][(0,2,0,1)][(0,2,0,1)]\n[(0,1,1,2)][(0,2,1,2)][(0,2,0,1)]\n",
    ),
];

fn input(from: u32, into: u32, place: u32, ship: Ship) -> VertexInput {
    VertexInput {
        from: Some(from),
        into,
        place,
        ship,
    }
}

// A vertex whose head is node 5, with so many inputs of the head, and then wide ones.
fn vertex(alloc: Global, forward: bool, heads: u32, inputs: u32) -> Result<Vertex, AllocError> {
    let mut made = Vec::new(alloc);
    for place in 0..heads {
        let ship = if forward {
            Ship::Forward
        } else {
            Ship::Rebalance
        };
        made.push(input(place, 5, place, ship))?;
    }
    for place in heads..inputs {
        made.push(input(place, 6, 1, Ship::Broadcast))?;
    }
    Ok(Vertex {
        nodes: NodeList::from_vec(vec![in alloc; 5, 6]?),
        inputs: VertexInputs::from_vec(made),
        outputs: VertexOutputs::from_vec(Vec::new(alloc)),
    })
}

#[test]
fn shares_by_the_limits(rt: HostRuntime) -> Result<(), Fail> {
    for (forward, heads, inputs, limits, subtasks) in CASES {
        let vertex = vertex(rt.alloc(), *forward, *heads, inputs.len() as u32)?;
        let text = decided(rt.alloc(), &vertex, inputs, *limits)?;
        assert_eq!(rt; text.as_str(), *subtasks);
    }
    Ok(())
}

// ---- cost

// The columns of 65,536 producers are shared within a second: prints the milliseconds.
#[test]
fn shares_columns_of_many_producers(rt: HostRuntime) -> Result<(), Fail> {
    let alloc = rt.alloc();
    let sizes = CellSizes::from_vec(vec![in alloc; 1000; 65_536 * 128]?);
    let grid = Grid {
        producers: 65_536,
        cells: 128,
        sizes,
    };
    let sizes = Grids::from_vec(vec![in alloc; grid]?);
    let vertex = vertex(alloc, false, 1, 1)?;
    assert!(rt; has_shape(&vertex, &sizes));
    if has_shape(&vertex, &sizes) {
        let start = Instant::now(&rt)?;
        let assignment = decide(alloc, &vertex, &sizes, &settings((1 << 30, 1, 128)))?;
        println!(rt; "{} ms", start.elapsed(&rt)?.as_millis())?;
        assert_eq!(rt; assignment.as_slice().len(), 8);
    }
    Ok(())
}
