ghost use Rattle.std.specs.Prelude.{◌≡◌, ◌+◌, ◌<◌, OnOk, length};

use crate::answer::Answer::{self, Double, Illegal, NotCover, Stale, Taken};
use crate::building::{Cells, Part, part, subs};
use crate::jobs::graph_of;
use crate::step::{Step, apply, apply_all};
use estate::{Names, PartName};
use exec_graph::{Graph, GraphError};
use plan_model::{JoinKind, Side};
use row_core::NoMemory;
use std::alloc::Global;
use std::test::Fail;
use test_plans::{Short, ShortNode};

// A source, and a filter and a sink over its rows, spread anew: the chains [0] and [1, 2].
const SPREAD: &[ShortNode] = &[
    (Short::Source(1), &[], false),
    (Short::Filter(0), &[0], true),
    (Short::Sink("out"), &[1], false),
];

// A join of two sources, and a sink.
const JOINED: &[ShortNode] = &[
    (Short::Source(1), &[], false),
    (Short::Source(1), &[], false),
    (Short::Join(JoinKind::Inner, &[(0, 0)]), &[0, 1], false),
    (Short::Sink("out"), &[2], false),
];

// Events by hand, how many of them are taken before the first that isn't, what that one is
// answered, and the subtasks that are ready then.
type Row = (
    &'static str,
    &'static [Step],
    usize,
    Answer,
    &'static [(u32, u32)],
);

fn is_row(alloc: Global, graph: &mut Graph, row: Row) -> Result<bool, NoMemory> {
    let (_, steps, taken, answer, ready) = row;
    let found = apply_all(alloc, graph, steps)?;
    let ready = subs(alloc, ready)?;
    Ok(found == (taken, answer) && graph.ready()?.as_slice() == ready.as_slice())
}

// Two attempts of the first vertex' subtask, and one of each of the second's.
const A: Part = (0, 0, 1, 0);

const B: Part = (0, 0, 1, 1);

const U: Part = (1, 0, 1, 0);

const V: Part = (1, 1, 1, 0);

const FILE: &[&[&[Cells]]] = &[&[&[(0, 1, 0, 1)]]];

const NO_FILE: &[&[&[Cells]]] = &[&[&[]]];

const HALVES: &[&[&[Cells]]] = &[&[&[(0, 1, 0, 1)]], &[&[(0, 1, 1, 2)]]];

const BESIDE: &[&[&[Cells]]] = &[&[&[(0, 1, 0, 1)], &[(0, 1, 0, 2)]]];

const BESIDE_HALF: &[&[&[Cells]]] = &[&[&[(0, 1, 0, 1)], &[(0, 1, 0, 1)]]];

const OPEN: Step = Step::Opened(1);

const REOPEN: Step = Step::Opened(2);

const MAKE: Step = Step::Made(0, &[0]);

const DECIDE: Step = Step::Decided(0, FILE);

const A_WINS: Step = Step::Done(A, &[], &[&[4, 4]]);

const B_WINS: Step = Step::Done(B, &[], &[&[4, 4]]);

const MAKE_NEXT: Step = Step::Made(1, &[1, 2]);

const DECIDE_NEXT: Step = Step::Decided(1, HALVES);

const U_WINS: Step = Step::Done(U, &[A], &[&[9]]);

const V_WINS: Step = Step::Done(V, &[A], &[&[9]]);

const GATE: Step = Step::Gate(A);

const FINISH: Step = Step::Ended(false);

const FAIL: Step = Step::Ended(true);

// Over the spread rows.
const ROWS: &[Row] = &[
    ("an epoch is above 0", &[Step::Opened(0)], 0, Illegal, &[]),
    ("epochs rise", &[REOPEN, OPEN], 1, Illegal, &[]),
    (
        "vertices are numbered",
        &[Step::Made(1, &[0])],
        0,
        Illegal,
        &[],
    ),
    (
        "a vertex is a chain",
        &[Step::Made(0, &[0, 1, 2])],
        0,
        Illegal,
        &[],
    ),
    (
        "what it reads is complete",
        &[MAKE, MAKE_NEXT],
        1,
        Illegal,
        &[],
    ),
    (
        "it is decided once",
        &[MAKE, DECIDE, DECIDE],
        2,
        Illegal,
        &[(0, 0)],
    ),
    (
        "a file is read",
        &[MAKE, Step::Decided(0, NO_FILE)],
        1,
        NotCover,
        &[],
    ),
    (
        "an epoch is opened",
        &[MAKE, DECIDE, A_WINS],
        2,
        Illegal,
        &[(0, 0)],
    ),
    (
        "an attempt is of the last epoch",
        &[OPEN, MAKE, DECIDE, REOPEN, A_WINS],
        4,
        Illegal,
        &[(0, 0)],
    ),
    (
        "an output has two cells",
        &[OPEN, MAKE, DECIDE, Step::Done(A, &[], &[&[8]])],
        3,
        Illegal,
        &[(0, 0)],
    ),
    (
        "a second winner",
        &[OPEN, MAKE, DECIDE, A_WINS, B_WINS],
        4,
        Double,
        &[],
    ),
    (
        "a part that is no winner's",
        &[OPEN, MAKE, DECIDE, Step::Done(A, &[B], &[&[4, 4]])],
        3,
        Stale,
        &[(0, 0)],
    ),
    (
        "no winner's part is lost",
        &[OPEN, MAKE, DECIDE, A_WINS, Step::Lost(B)],
        4,
        Illegal,
        &[],
    ),
    (
        "spent troubles",
        &[MAKE, DECIDE, GATE, GATE, GATE, GATE, OPEN],
        6,
        Illegal,
        &[(0, 0)],
    ),
    (
        "a job fails once",
        &[MAKE, DECIDE, GATE, GATE, GATE, GATE, FAIL, FAIL],
        7,
        Illegal,
        &[(0, 0)],
    ),
    (
        "a finished job is complete",
        &[OPEN, FINISH],
        1,
        Illegal,
        &[],
    ),
];

// Events behind the first vertex' win and the second's decision.
const BEFORE: &[Step] = &[OPEN, MAKE, DECIDE, A_WINS, MAKE_NEXT, DECIDE_NEXT];

// What is lost then, and what runs again.
const LOSSES: &[Row] = &[
    ("nothing", &[], 0, Taken, &[(1, 0), (1, 1)]),
    (
        "no reset of nothing",
        &[Step::Reset(&[], &[])],
        0,
        Illegal,
        &[(1, 0), (1, 1)],
    ),
    (
        "a lost part runs again",
        &[Step::Lost(A), Step::Reset(&[A], &[(0, 0)])],
        2,
        Taken,
        &[(0, 0)],
    ),
    (
        "what read the lost part is stale",
        &[Step::Reset(&[A], &[(0, 0)]), B_WINS, U_WINS],
        2,
        Stale,
        &[(1, 0), (1, 1)],
    ),
    (
        "a finished reader is left out",
        &[U_WINS, Step::Reset(&[A], &[(0, 0)])],
        1,
        Illegal,
        &[(1, 1)],
    ),
    (
        "a finished reader runs again",
        &[U_WINS, Step::Reset(&[A], &[(0, 0), (1, 0)])],
        2,
        Taken,
        &[(0, 0)],
    ),
    (
        "a part that nobody wants",
        &[U_WINS, V_WINS, Step::Reset(&[A], &[(0, 0)])],
        2,
        Illegal,
        &[],
    ),
    (
        "nothing after the end",
        &[U_WINS, V_WINS, FINISH, REOPEN],
        3,
        Illegal,
        &[],
    ),
];

const MAKE_RIGHT: Step = Step::Made(0, &[1]);

const WIDEN: Step = Step::Widened(2, Side::Right);

const MAKE_ALL: Step = Step::Made(1, &[0, 2, 3]);

// Over the join, whose right side is to be read whole.
const JOINS: &[Row] = &[
    (
        "a side that isn't complete",
        &[OPEN, MAKE_RIGHT, DECIDE, WIDEN],
        3,
        Illegal,
        &[(0, 0)],
    ),
    (
        "a join is widened once",
        &[OPEN, MAKE_RIGHT, DECIDE, A_WINS, WIDEN, WIDEN],
        5,
        Illegal,
        &[],
    ),
    (
        "half of the wide side",
        &[
            OPEN,
            MAKE_RIGHT,
            DECIDE,
            A_WINS,
            WIDEN,
            MAKE_ALL,
            Step::Decided(1, BESIDE_HALF),
        ],
        6,
        NotCover,
        &[],
    ),
    (
        "the whole wide side",
        &[
            OPEN,
            MAKE_RIGHT,
            DECIDE,
            A_WINS,
            WIDEN,
            MAKE_ALL,
            Step::Decided(1, BESIDE),
        ],
        7,
        Taken,
        &[(1, 0)],
    ),
];

#[test]
fn events_are_taken_while_they_are_legal(rt: HostRuntime) -> Result<(), Fail> {
    for row in ROWS {
        let mut graph = graph_of(&rt, rt.alloc(), SPREAD, &[4])?;
        assert!(rt; is_row(rt.alloc(), &mut graph, *row)?, "{}", row.0);
    }
    Ok(())
}

#[test]
fn what_is_lost_runs_again(rt: HostRuntime) -> Result<(), Fail> {
    for row in LOSSES {
        let mut graph = graph_of(&rt, rt.alloc(), SPREAD, &[4])?;
        apply_all(rt.alloc(), &mut graph, BEFORE)?;
        assert!(rt; is_row(rt.alloc(), &mut graph, *row)?, "{}", row.0);
    }
    Ok(())
}

#[test]
fn a_join_is_widened_once_its_side_is_complete(rt: HostRuntime) -> Result<(), Fail> {
    for row in JOINS {
        let mut graph = graph_of(&rt, rt.alloc(), JOINED, &[4])?;
        assert!(rt; is_row(rt.alloc(), &mut graph, *row)?, "{}", row.0);
    }
    Ok(())
}

#[test]
fn a_whole_job_is_complete(rt: HostRuntime) -> Result<(), Fail> {
    let mut graph = graph_of(&rt, rt.alloc(), SPREAD, &[4])?;
    apply_all(rt.alloc(), &mut graph, BEFORE)?;
    assert!(rt; graph.unwon() == 2 && !graph.complete());
    let ends = apply_all(rt.alloc(), &mut graph, &[U_WINS, V_WINS, FINISH])?;
    assert!(rt; ends == (3, Taken) && graph.unwon() == 0 && graph.complete());
    Ok(())
}

// The spread rows where the first vertex is decided.
fn decide_first(alloc: Global, graph: &mut Graph) -> Result<(), NoMemory>
    ensures { graph.new.attempts ≡ graph.old.attempts }
{
    apply(alloc, graph, OPEN)?;
    apply(alloc, graph, MAKE)?;
    apply(alloc, graph, DECIDE)?;
    Ok(())
}

// The same where this attempt of its subtask has won, and the second is decided.
fn decide_second(alloc: Global, graph: &mut Graph, wins: Step) -> Result<(), NoMemory>
    ensures { graph.new.attempts ≡ graph.old.attempts }
{
    apply(alloc, graph, wins)?;
    apply(alloc, graph, MAKE_NEXT)?;
    apply(alloc, graph, DECIDE_NEXT)?;
    Ok(())
}

#[tactic(auto, using(crate::proofs::Attempts::few_tries))]
fn deploy(graph: &mut Graph, vertex: u32, worker: u32) -> Result<(PartName, Names), GraphError>
    requires { length graph.old.attempts.given < 3 }
    ensures { OnOk result (length graph.new.attempts.given ≡ length graph.old.attempts.given + 1) }
{
    graph.deployed(vertex, 0, 1, worker, 0)
}

// Of two attempts that run the second arrives first, and its part is what readers are told.
#[test]
fn the_first_to_arrive_wins(rt: HostRuntime) -> Result<(), Fail> {
    let mut graph = graph_of(&rt, rt.alloc(), SPREAD, &[4])?;
    decide_first(rt.alloc(), &mut graph)?;
    let (first, _) = deploy(&mut graph, 0, 0)?;
    let (second, _) = deploy(&mut graph, 0, 1)?;
    assert!(rt; first == part(A) && second == part(B));
    decide_second(rt.alloc(), &mut graph, B_WINS)?;
    let late = apply(rt.alloc(), &mut graph, A_WINS)?;
    let (reader, inputs) = deploy(&mut graph, 1, 0)?;
    assert!(rt; late == Double && reader == part(U));
    assert_eq!(rt; inputs.as_slice(), [part(B)].as_slice());
    Ok(())
}

// A subtask is ready again once its attempt is dropped.
#[test]
fn a_dropped_attempt_frees_its_subtask(rt: HostRuntime) -> Result<(), Fail> {
    let mut graph = graph_of(&rt, rt.alloc(), SPREAD, &[4])?;
    decide_first(rt.alloc(), &mut graph)?;
    let (name, _) = deploy(&mut graph, 0, 0)?;
    assert!(rt; graph.first_ready().is_none());
    graph.dropped(name);
    assert!(rt; graph.first_ready().is_some());
    Ok(())
}
