use crate::answer::Answer;
use crate::building::Cells;
use crate::jobs::graph_of;
use crate::step::{Step, apply_all};
use estate::{Names, PartName};
use exec_graph::{Graph, Sub, Subs};
use plan_model::JoinKind;
use region_failover::{Budget, closure, trouble};
use row_core::NoMemory;
use std::alloc::Global;
use std::process::Abort;
use std::test::Fail;
use test_plans::{Short, ShortNode};

// A source, two filters over its rows, spread anew, their join, and a sink: the vertices [0], [1],
// [2] and [3, 4].
const DIAMOND: &[ShortNode] = &[
    (Short::Source(1), &[], false),
    (Short::Filter(0), &[0], true),
    (Short::Filter(0), &[0], true),
    (Short::Join(JoinKind::Inner, &[(0, 0)]), &[1, 2], false),
    (Short::Sink("out"), &[3], false),
];

// The subtasks by a digit each. 2 reads from 0, 3 reads from 1, 4 reads from both, and 5 and 6 each
// read from 2, 3 and 4.
const SUBTASKS: &[(char, u32, u32)] = &[
    ('0', 0, 0),
    ('1', 0, 1),
    ('2', 1, 0),
    ('3', 1, 1),
    ('4', 2, 0),
    ('5', 3, 0),
    ('6', 3, 1),
];

// Each set of winners before the join whose parts are gone, and what runs again, by the two rules:
// a part that is gone runs again where a sink or a vertex to come wants it, or a reader that is
// unfinished or runs again; and what read from one that runs again does so too.
// - Where the join is to come or unfinished: 2, 3 and 4 where they are gone; 0 where 2 or 4 runs
//   again, 1 where 3 or 4 does; then 2, 3 and 4 where they read from these.
// - Where 5 is done and 6 isn't: the same, and 5 where anything that it reads from runs again.
// - Where both are done and the part of 5 is gone too: 5, since it ends in a sink; all that is
//   wanted by 5; and 6 where anything that it reads from runs again.
const ROWS: &[(&str, &str, &str, &str)] = &[
    ("", "", "", "5"),
    ("0", "", "", "5"),
    ("1", "", "", "5"),
    ("01", "", "", "5"),
    ("2", "2", "25", "256"),
    ("02", "024", "0245", "02456"),
    ("12", "2", "25", "256"),
    ("012", "01234", "012345", "0123456"),
    ("3", "3", "35", "356"),
    ("03", "3", "35", "356"),
    ("13", "134", "1345", "13456"),
    ("013", "01234", "012345", "0123456"),
    ("4", "4", "45", "456"),
    ("04", "024", "0245", "02456"),
    ("14", "134", "1345", "13456"),
    ("014", "01234", "012345", "0123456"),
    ("23", "23", "235", "2356"),
    ("023", "0234", "02345", "023456"),
    ("123", "1234", "12345", "123456"),
    ("0123", "01234", "012345", "0123456"),
    ("24", "24", "245", "2456"),
    ("024", "024", "0245", "02456"),
    ("124", "1234", "12345", "123456"),
    ("0124", "01234", "012345", "0123456"),
    ("34", "34", "345", "3456"),
    ("034", "0234", "02345", "023456"),
    ("134", "134", "1345", "13456"),
    ("0134", "01234", "012345", "0123456"),
    ("234", "234", "2345", "23456"),
    ("0234", "0234", "02345", "023456"),
    ("1234", "1234", "12345", "123456"),
    ("01234", "01234", "012345", "0123456"),
];

const FILES: &[&[&[Cells]]] = &[&[&[(0, 1, 0, 1)]], &[&[(1, 2, 0, 1)]]];

const BY_PRODUCER: &[&[&[Cells]]] = &[&[&[(0, 1, 0, 2)]], &[&[(1, 2, 0, 2)]]];

const WHOLE: &[&[&[Cells]]] = &[&[&[(0, 2, 0, 2)]]];

const BY_COLUMN: &[&[&[Cells]]] = &[
    &[&[(0, 2, 0, 1)], &[(0, 1, 0, 1)]],
    &[&[(0, 2, 1, 2)], &[(0, 1, 1, 2)]],
];

const SOURCE: &[Step] = &[
    Step::Opened(1),
    Step::Made(0, &[0]),
    Step::Decided(0, FILES),
    Step::Done((0, 0, 1, 0), &[], &[&[4, 4], &[4, 4]]),
    Step::Done((0, 1, 1, 0), &[], &[&[4, 4], &[4, 4]]),
];

const MIDDLES: &[Step] = &[
    Step::Made(1, &[1]),
    Step::Made(2, &[2]),
    Step::Decided(1, BY_PRODUCER),
    Step::Decided(2, WHOLE),
    Step::Done((1, 0, 1, 0), &[(0, 0, 1, 0)], &[&[4, 4]]),
    Step::Done((1, 1, 1, 0), &[(0, 1, 1, 0)], &[&[4, 4]]),
    Step::Done((2, 0, 1, 0), &[(0, 0, 1, 0), (0, 1, 1, 0)], &[&[4, 4]]),
];

const JOIN: &[Step] = &[Step::Made(3, &[3, 4]), Step::Decided(3, BY_COLUMN)];

const FIRST_RESULT: &[Step] = &[Step::Done(
    (3, 0, 1, 0),
    &[(1, 0, 1, 0), (1, 1, 1, 0), (2, 0, 1, 0)],
    &[&[9]],
)];

const SECOND_RESULT: &[Step] = &[Step::Done(
    (3, 1, 1, 0),
    &[(1, 0, 1, 0), (1, 1, 1, 0), (2, 0, 1, 0)],
    &[&[9]],
)];

// The diamond where these events have come, each of which is taken.
fn diamond(rt: &impl Abort, alloc: Global, events: &[&[Step]]) -> Result<Graph, Fail> {
    let mut graph = graph_of(rt, alloc, DIAMOND, &[4, 4])?;
    for steps in events {
        let (_, answer) = apply_all(alloc, &mut graph, steps)?;
        assert!(rt; answer == Answer::Taken);
    }
    Ok(graph)
}

fn parts_of(alloc: Global, digits: &str) -> Result<Names, NoMemory> {
    let mut names = Vec::new(alloc);
    for (digit, vertex, subtask) in SUBTASKS {
        if digits.contains(*digit) {
            names.push(PartName {
                vertex: *vertex,
                subtask: *subtask,
                epoch: 1,
                attempt: 0,
            })?;
        }
    }
    Ok(Names::from_vec(names))
}

fn subtasks_of(alloc: Global, digits: &str) -> Result<Subs, NoMemory> {
    let mut subs = Vec::new(alloc);
    for (digit, vertex, subtask) in SUBTASKS {
        if digits.contains(*digit) {
            subs.push(Sub {
                vertex: *vertex,
                subtask: *subtask,
            })?;
        }
    }
    Ok(Subs::from_vec(subs))
}

// Whether these run again where the parts of those are gone.
fn run_again(alloc: Global, graph: &Graph, gone: &str, again: &str) -> Result<bool, NoMemory> {
    let found = closure(alloc, graph, &parts_of(alloc, gone)?)?;
    Ok(found.as_slice() == subtasks_of(alloc, again)?.as_slice())
}

// The same where the part of 5 is gone too.
fn run_again_with_result(
    alloc: Global,
    graph: &Graph,
    gone: &str,
    again: &str,
) -> Result<bool, NoMemory> {
    let mut all = String::from_str(alloc, gone)?;
    all.push('5')?;
    run_again(alloc, graph, all.as_str(), again)
}

#[test]
fn while_the_join_is_to_come_or_unfinished(rt: HostRuntime) -> Result<(), Fail> {
    let before = diamond(&rt, rt.alloc(), &[SOURCE, MIDDLES])?;
    let decided = diamond(&rt, rt.alloc(), &[SOURCE, MIDDLES, JOIN])?;
    for (gone, again, _, _) in ROWS {
        assert!(rt; run_again(rt.alloc(), &before, gone, again)?, "{gone}");
        assert!(rt; run_again(rt.alloc(), &decided, gone, again)?, "{gone}");
    }
    Ok(())
}

#[test]
fn while_one_result_of_two_is_there(rt: HostRuntime) -> Result<(), Fail> {
    let graph = diamond(&rt, rt.alloc(), &[SOURCE, MIDDLES, JOIN, FIRST_RESULT])?;
    for (gone, _, again, _) in ROWS {
        assert!(rt; run_again(rt.alloc(), &graph, gone, again)?, "{gone}");
    }
    Ok(())
}

// Where all results are held nothing else is wanted.
#[test]
fn once_all_results_are_there(rt: HostRuntime) -> Result<(), Fail> {
    let alloc = rt.alloc();
    let events: &[&[Step]] = &[SOURCE, MIDDLES, JOIN, FIRST_RESULT, SECOND_RESULT];
    let graph = diamond(&rt, alloc, events)?;
    for (gone, _, _, again) in ROWS {
        assert!(rt; run_again(alloc, &graph, gone, "")?, "{gone}");
        assert!(rt;
            run_again_with_result(alloc, &graph, gone, again)?,
            "{gone}"
        );
    }
    Ok(())
}

#[test]
fn troubles_up_to_the_limit_are_allowed(rt: HostRuntime) {
    let found = [2, 3, 4].map(|count| trouble(count, 3));
    assert_eq!(rt; found, [Budget::Go, Budget::Go, Budget::Spent]);
}
