//! Small plans, each node in short.

use plan_model::{
    Agg, Aggs, Column, Exprs, GoodPlan, JoinKind, KeyPairs, Kind, Node, Op, Plan, PlanError,
    Schema, check_plan,
};
use row_core::{Bytes, Cmp, Columns, Expr, NoMemory, Pred, Value};
use std::alloc::Global;

const MOST_NODES: usize = 100;

/// An operator in short: a source of the table `t` by its number of columns, all of numbers, a
/// filter by the column that it looks at, a project and an aggregate by the columns that they show
/// or count by.
#[derive(Clone, Copy)]
pub enum Short {
    Source(u32),
    Filter(u32),
    AtLeast(u32, i64),
    Project(&'static [u32]),
    Union,
    Aggregate(&'static [u32], u32),
    Distinct,
    Join(JoinKind, &'static [(u32, u32)]),
    Sink(&'static str),
}

/// An operator, its inputs, and whether its rows are spread anew.
pub type ShortNode = (Short, &'static [u32], bool);

fn schema(alloc: Global, columns: u32) -> Result<Schema, NoMemory> {
    let mut made = Vec::new(alloc);
    for _ in 0..columns {
        made.push(Column {
            name: Bytes::from_slice(alloc, b"c")?,
            kind: Kind::IntKind,
        })?;
    }
    Ok(Schema::from_vec(made))
}

fn exprs(alloc: Global, columns: &[u32]) -> Result<Exprs, NoMemory> {
    let mut made = Vec::new(alloc);
    for column in columns {
        made.push(Expr::Col(*column))?;
    }
    Ok(Exprs::from_vec(made))
}

fn counts(alloc: Global, number: u32) -> Result<Aggs, NoMemory> {
    let mut made = Vec::new(alloc);
    for _ in 0..number {
        made.push(Agg::Count)?;
    }
    Ok(Aggs::from_vec(made))
}

fn at_least(column: u32, number: i64) -> Pred {
    Pred::Test(Cmp::Ge, Expr::Col(column), Expr::Const(Value::Int(number)))
}

fn op(alloc: Global, short: Short) -> Result<Op, NoMemory> {
    Ok(match short {
        Short::Source(columns) => Op::Source {
            table: Bytes::from_slice(alloc, b"t")?,
            columns: schema(alloc, columns)?,
        },
        Short::Filter(column) => Op::Filter {
            test: Pred::IsNull(Expr::Col(column)),
        },
        Short::AtLeast(column, number) => Op::Filter {
            test: at_least(column, number),
        },
        Short::Project(columns) => Op::Project {
            exprs: exprs(alloc, columns)?,
        },
        Short::Union => Op::Union,
        Short::Aggregate(keys, aggs) => Op::Aggregate {
            keys: Columns::from_vec(keys.to_vec(alloc)?),
            aggs: counts(alloc, aggs)?,
        },
        Short::Distinct => Op::Distinct,
        Short::Join(kind, keys) => Op::Join {
            kind,
            keys: KeyPairs::from_vec(keys.to_vec(alloc)?),
        },
        Short::Sink(name) => Op::Sink {
            name: Bytes::from_slice(alloc, name.as_bytes())?,
        },
    })
}

fn node(alloc: Global, short: ShortNode) -> Result<Node, NoMemory> {
    let (short, inputs, rebalance) = short;
    Ok(Node {
        inputs: Columns::from_vec(inputs.to_vec(alloc)?),
        op: op(alloc, short)?,
        rebalance,
    })
}

/// The plan of these nodes.
pub fn plan(alloc: Global, nodes: &[ShortNode]) -> Result<Plan, NoMemory> {
    let mut made = Vec::new(alloc);
    for short in nodes {
        made.push(node(alloc, *short)?)?;
    }
    Ok(Plan::from_vec(made))
}

/// The plan, which has at most a hundred nodes, as it is accepted.
pub fn accepted(alloc: Global, plan: Plan) -> Result<GoodPlan, PlanError> {
    if plan.as_slice().len() > MOST_NODES {
        return Err(PlanError::NoMemory);
    }
    check_plan(alloc, plan)
}
