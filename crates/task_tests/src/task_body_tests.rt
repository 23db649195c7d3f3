ghost use Rattle.std.specs.Arc.{arc_value};
ghost use Rattle.std.specs.Prelude.{◌≡◌, All, IfOk, IfSome, map};
ghost use Rattle.task_body.specs.Cells.{HasWidth};
ghost use Rattle.vertex_builder.specs.Vertices.{IsVertex};

use csv_tables::sink_text;
use estate::{Names, PartName};
use plan_model::{GoodPlan, JoinKind, Node, Op, Plan, Setting, Settings, Side};
use row_core::{Bytes, Columns, NoMemory, RowError, Rows, decode_rows};
use row_view::EncodedRows;
use std::alloc::{AllocError, Global};
use std::sync::Arc;
use std::test::Fail;
use task_body::{Task, TaskCell, TaskInput, constants_fit, input_widths, run_task};
use test_plans::{Short, ShortNode, accepted, plan};
use vertex_builder::{NodeSet, Vertex, Widening, Widenings, makeable};

// A cell in short: a file, or rows of numbers.
#[derive(Clone, Copy)]
enum Given {
    File(&'static str),
    Rows(&'static [&'static [i64]]),
}

// An attempt in short: which nodes are complete, which joins are widened, the place of its vertex
// among those that can be made, its number, and the cells of each input.
#[derive(Clone, Copy)]
struct Attempt<'a> {
    complete: &'a [u32],
    widened: &'a [Widening],
    vertex: usize,
    number: u32,
    inputs: &'a [&'a [Given]],
}

// The bytes of rows of numbers.
fn rows_bytes(alloc: Global, rows: &[&[i64]]) -> Result<Bytes, NoMemory> {
    let mut bytes = Bytes::new(alloc);
    for values in rows {
        if values.len() > 9 {
            return Err(AllocError);
        }
        bytes.extend(&(values.len() as u16).to_be_bytes())?;
        for value in *values {
            bytes.push(1)?;
            bytes.extend(&value.to_be_bytes())?;
        }
    }
    Ok(bytes)
}

// A cell, where its rows have this width.
fn cell(alloc: Global, given: Given, width: u32) -> Result<Option<TaskCell>, NoMemory>
    ensures { IfOk result (λ made. IfSome made (HasWidth width)) }
{
    match given {
        Given::File(text) => {
            let bytes = Bytes::from_slice(alloc, text.as_bytes())?;
            Ok(Some(TaskCell::File(bytes)))
        }
        Given::Rows(rows) => match EncodedRows::check(rows_bytes(alloc, rows)?, width) {
            Ok(rows) => Ok(Some(TaskCell::Cell(rows))),
            Err(_) => Ok(None),
        },
    }
}

// The cells of an input.
fn input(alloc: Global, given: &[Given], width: u32) -> Result<Option<TaskInput>, NoMemory>
    ensures { IfOk result (λ made. IfSome made (λ input. input.width ≡ width)) }
{
    let mut cells = Vec::new(alloc);
    for one in given {
        match cell(alloc, *one, width)? {
            Some(cell) => cells.push(cell)?,
            None => return Ok(None),
        }
    }
    Ok(Some(TaskInput::new(width, cells)))
}

// The inputs of a vertex, which have these widths.
fn inputs(
    alloc: Global,
    given: &[&[Given]],
    widths: &[u32],
) -> Result<Option<Vec<TaskInput>>, NoMemory>
    ensures { IfOk result (λ made. IfSome made
        (λ inputs. map (λ input. input.width) inputs.items ≡ widths.now)) }
{
    let mut inputs = Vec::new(alloc);
    for width in widths {
        let Some(given) = given.get(inputs.len()) else {
            return Ok(None);
        };
        let Some(input) = input(alloc, given, *width)? else {
            return Ok(None);
        };
        inputs.push(input)?;
    }
    Ok(Some(inputs))
}

// The vertex of an attempt.
fn vertex_of(
    alloc: Global,
    plan: &GoodPlan,
    attempt: &Attempt,
    widened: &Widenings,
    settings: &Settings,
) -> Result<Option<Vertex>, NoMemory>
    ensures { IfOk result (λ made. IfSome made
        (IsVertex plan.now widened.now settings.now.max_parallelism)) }
{
    let complete = NodeSet::from_vec(attempt.complete.to_vec(alloc)?);
    let made = NodeSet::from_vec(Vec::new(alloc));
    let able = makeable(alloc, plan, &made, &complete, widened, settings)?;
    let mut vertices = able.into_vec();
    if attempt.vertex >= vertices.len() {
        return Ok(None);
    }
    Ok(Some(vertices.swap_remove(attempt.vertex)))
}

fn shared(alloc: Global, plan: GoodPlan) -> Result<Arc<GoodPlan>, NoMemory>
    ensures { IfOk result (λ shared. arc_value shared ≡ plan) }
{
    match Arc::new(alloc, plan) {
        Ok(shared) => Ok(shared),
        Err(_) => Err(AllocError),
    }
}

// The task of an attempt on a plan, whose outputs have as many cells as the settings say.
fn task_of(
    alloc: Global,
    plan: GoodPlan,
    attempt: &Attempt,
    settings: &Settings,
) -> Result<Option<Task>, NoMemory> {
    let most = settings.max_parallelism();
    let widened = Widenings::from_vec(attempt.widened.to_vec(alloc)?);
    let Some(vertex) = vertex_of(alloc, &plan, attempt, &widened, settings)? else {
        return Ok(None);
    };
    let widths = input_widths(alloc, &plan, &vertex)?;
    let Some(inputs) = inputs(alloc, attempt.inputs, widths.as_slice())? else {
        return Ok(None);
    };
    let within = (vertex.head() as usize) < plan.nodes().len();
    if most == 0 || !within || !constants_fit(&plan, vertex.nodes.as_slice()) {
        return Ok(None);
    }
    let name = PartName {
        vertex: 0,
        subtask: 0,
        epoch: 1,
        attempt: attempt.number,
    };
    let plan = shared(alloc, plan)?;
    let named = Names::from_vec(Vec::new(alloc));
    Ok(Some(Task::new(name, plan, widened, most, vertex, inputs, named)))
}

// The lines of a cell's rows, in their order, or sorted.
fn lines(alloc: Global, cell: &Bytes, sorted: bool) -> Result<Bytes, RowError> {
    let rows = decode_rows(alloc, cell)?;
    if sorted {
        return Ok(sink_text(alloc, &rows)?);
    }
    let mut text = Bytes::new(alloc);
    for row in rows.into_vec() {
        let mut one = Rows::new(alloc);
        one.push(row)?;
        text.extend(sink_text(alloc, &one)?.as_slice())?;
    }
    Ok(text)
}

// What may go from one thread to another, and be seen by several.
fn crossing<T: Send + Sync>(value: T) -> T {
    value
}

// What an attempt gives: the lines of each cell, and `|` behind it.
fn cells_of(alloc: Global, plan: Plan, attempt: &Attempt, sorted: bool) -> Result<Bytes, Fail> {
    let mut text = Bytes::new(alloc);
    let mut settings = Settings::defaults();
    settings.set(Setting::MaxParallelism, 2);
    let plan = accepted(alloc, plan)?;
    let Some(task) = task_of(alloc, plan, attempt, &settings)? else {
        return Ok(text);
    };
    let task = crossing(Arc::new(alloc, task)?);
    let ran = run_task(alloc, task)?;
    for edge in ran.edges.as_slice() {
        for cell in edge.as_slice() {
            text.extend(lines(alloc, cell, sorted)?.as_slice())?;
            text.push(b'|')?;
        }
    }
    Ok(text)
}

// A source whose rows are spread anew, and a filter on them.
const SPREAD: &[ShortNode] = &[
    (Short::Source(1), &[], false),
    (Short::AtLeast(0, 0), &[0], true),
    (Short::Sink("out"), &[1], false),
];

// The place of a vertex and the number of an attempt, the files or rows at its one input, and the
// lines of its cells. An attempt begins with the file of its number, and deals out its rows from
// the cell of its number on.
const TURNS: &[(usize, u32, &[Given], &str)] = &[
    (0, 0, &[Given::File("1\n2\n")], "1\n|2\n|"),
    (0, 1, &[Given::File("1\n2\n")], "2\n|1\n|"),
    (1, 0, &[Given::Rows(&[&[2]])], "2\n|"),
    (
        0,
        1,
        &[Given::File("1\n"), Given::File("2\n"), Given::File("3\n")],
        "3\n|2\n1\n|",
    ),
    (0, 5, &[], "||"),
];

#[test]
fn attempts_take_turns(rt: HostRuntime) -> Result<(), Fail> {
    for (vertex, number, cells, wanted) in TURNS {
        let nodes = plan(rt.alloc(), SPREAD)?;
        let attempt = Attempt {
            complete: &[0],
            widened: &[],
            vertex: *vertex,
            number: *number,
            inputs: &[cells],
        };
        let text = cells_of(rt.alloc(), nodes, &attempt, false)?;
        assert_eq!(rt; text.as_slice(), wanted.as_bytes());
    }
    Ok(())
}

// ---- every operator

const FRONT: &[ShortNode] = &[
    (Short::Source(2), &[], false),
    (Short::AtLeast(0, 2), &[0], false),
    (Short::Project(&[1, 0]), &[1], false),
];

const BEHIND: &[ShortNode] = &[
    (Short::Aggregate(&[0], 1), &[3], false),
    (Short::Distinct, &[4], false),
    (Short::Source(2), &[], false),
    (Short::Union, &[5, 6], false),
    (Short::Source(1), &[], false),
    (Short::Join(JoinKind::Left, &[(0, 0)]), &[7, 8], false),
    (Short::Sink("out"), &[9], false),
];

// The nodes of both, and between them one that cuts the texts of a column at each 0.
fn every_operator(alloc: Global) -> Result<Plan, NoMemory> {
    let mut nodes = plan(alloc, FRONT)?.into_vec();
    nodes.push(Node {
        op: Op::Explode {
            column: 0,
            separator: b'0',
        },
        inputs: Columns::from_vec(vec![in alloc; 2]?),
        rebalance: false,
    })?;
    nodes.append(&mut plan(alloc, BEHIND)?.into_vec())?;
    Ok(Plan::from_vec(nodes))
}

// What each vertex gives of the cells of its inputs, the lines of each cell in order.
const HEADS: &[(&[&[Given]], &str)] = &[
    (&[&[Given::File("1,20\n2,304\n3\n")]], "4,2\n|3,2\n|"),
    (
        &[&[
            Given::Rows(&[&[5, 1], &[6, 1]]),
            Given::Rows(&[&[5, 2], &[6, 2]]),
        ]],
        "5,2\n|6,2\n|",
    ),
    (&[&[Given::Rows(&[&[5, 2], &[5, 2]])]], "5,2\n||"),
    (&[&[Given::File("8,1\n")]], "8,1\n||"),
    (
        &[
            &[Given::Rows(&[&[5, 2]])],
            &[Given::Rows(&[&[8, 1]]), Given::Rows(&[&[8, 1]])],
        ],
        "8,1\n8,1\n|5,2\n|",
    ),
    (&[&[Given::File("5\n8\n")]], "8\n|5\n|"),
    (
        &[
            &[Given::Rows(&[&[5, 2], &[7, 1]])],
            &[Given::Rows(&[&[5], &[5]])],
        ],
        "5,2,5\n5,2,5\n7,1,\n|",
    ),
];

#[test]
fn each_operator_is_a_head(rt: HostRuntime) -> Result<(), Fail> {
    for (vertex, (inputs, wanted)) in HEADS.iter().enumerate() {
        let nodes = every_operator(rt.alloc())?;
        let attempt = Attempt {
            complete: &[3, 4, 5, 6, 7, 8],
            widened: &[],
            vertex,
            number: 0,
            inputs,
        };
        let text = cells_of(rt.alloc(), nodes, &attempt, true)?;
        assert_eq!(rt; text.as_slice(), wanted.as_bytes());
    }
    Ok(())
}

// ---- widened joins

const JOINS: &[ShortNode] = &[
    (Short::Source(1), &[], false),
    (Short::Source(1), &[], false),
    (Short::Source(1), &[], false),
    (Short::Join(JoinKind::Inner, &[(0, 0)]), &[0, 1], false),
    (Short::Join(JoinKind::Left, &[(0, 0)]), &[3, 2], false),
    (Short::Sink("out"), &[4], false),
];

// The build side of the first join, the place of the vertex of the other, the cells of the inputs,
// and the lines of the rows. The second join builds its right side.
const WIDE: &[(Side, usize, &[&[Given]], &str)] = &[
    (
        Side::Right,
        0,
        &[
            &[Given::File("1\n2\n3\n")],
            &[Given::Rows(&[&[1]]), Given::Rows(&[&[3], &[4]])],
            &[Given::Rows(&[&[3]])],
        ],
        "1,1,\n3,3,3\n|",
    ),
    (
        Side::Left,
        1,
        &[
            &[Given::File("1\n"), Given::File("2\n")],
            &[Given::Rows(&[&[2], &[2]]), Given::Rows(&[&[1]])],
            &[Given::Rows(&[&[2], &[5]])],
        ],
        "1,1,\n2,2,2\n2,2,2\n|",
    ),
];

#[test]
fn two_joins_are_chained(rt: HostRuntime) -> Result<(), Fail> {
    for (side, vertex, inputs, wanted) in WIDE {
        let nodes = plan(rt.alloc(), JOINS)?;
        let first = Widening {
            node: 3,
            side: *side,
        };
        let second = Widening {
            node: 4,
            side: Side::Right,
        };
        let attempt = Attempt {
            complete: &[0, 1, 2],
            widened: &[first, second],
            vertex: *vertex,
            number: 1,
            inputs,
        };
        let text = cells_of(rt.alloc(), nodes, &attempt, true)?;
        assert_eq!(rt; text.as_slice(), wanted.as_bytes());
    }
    Ok(())
}
