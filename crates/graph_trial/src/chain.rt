//! A plan of one chain: a source, filters whose rows are spread anew, and a sink.

ghost use Rattle.std.specs.Prelude.{◌≤◌, ◌<◌, ◌^◌, All, IfOk, length};

use crate::trial_error::TrialError;
use estate::Sizes;
use graph_model::FileSizes;
use plan_model::{Column, GoodPlan, Kind, Node, Op, Plan, Schema, Setting, Settings, check_plan};
use row_core::{Bytes, Columns, Expr, NoMemory, Pred};
use std::alloc::Global;

const MOST_NODES: usize = 4096;

/// The plan of so many nodes.
pub fn chain_plan(alloc: Global, nodes: u32) -> Result<GoodPlan, TrialError> {
    if nodes < 2 {
        return Err(TrialError::Words);
    }
    let made = chain_nodes(alloc, nodes)?;
    if made.len() > MOST_NODES {
        return Err(TrialError::Words);
    }
    Ok(check_plan(alloc, Plan::from_vec(made))?)
}

fn chain_nodes(alloc: Global, nodes: u32) -> Result<Vec<Node>, NoMemory>
    requires { 2 ≤ nodes }
{
    let mut made = Vec::new(alloc);
    made.push(node(alloc, source(alloc)?, None)?)?;
    for before in 0..nodes - 2 {
        made.push(node(alloc, filter(), Some(before))?)?;
    }
    made.push(Node {
        inputs: inputs(alloc, Some(nodes - 2))?,
        op: sink(alloc)?,
        rebalance: false,
    })?;
    Ok(made)
}

fn node(alloc: Global, op: Op, input: Option<u32>) -> Result<Node, NoMemory> {
    Ok(Node {
        inputs: inputs(alloc, input)?,
        op,
        rebalance: input.is_some(),
    })
}

fn inputs(alloc: Global, input: Option<u32>) -> Result<Columns, NoMemory> {
    let mut made = Vec::new(alloc);
    if let Some(input) = input {
        made.push(input)?;
    }
    Ok(Columns::from_vec(made))
}

fn source(alloc: Global) -> Result<Op, NoMemory> {
    let mut columns = Vec::new(alloc);
    columns.push(Column {
        name: Bytes::from_slice(alloc, b"c")?,
        kind: Kind::IntKind,
    })?;
    Ok(Op::Source {
        table: Bytes::from_slice(alloc, b"t")?,
        columns: Schema::from_vec(columns),
    })
}

fn sink(alloc: Global) -> Result<Op, NoMemory> {
    Ok(Op::Sink {
        name: Bytes::from_slice(alloc, b"out")?,
    })
}

fn filter() -> Op {
    Op::Filter {
        test: Pred::IsNull(Expr::Col(0)),
    }
}

/// Settings under which an output has so many cells.
pub fn chain_settings(cells: u32) -> Result<Settings, TrialError> {
    let mut settings = Settings::defaults();
    if settings.set(Setting::MaxParallelism, u64::from(cells)) {
        Ok(settings)
    } else {
        Err(TrialError::Words)
    }
}

/// The sizes of so many files of the table.
pub fn table_sizes(alloc: Global, files: u32) -> Result<FileSizes, NoMemory>
    ensures { IfOk result (All (λ sizes. length sizes < 2 ^ 32)) }
{
    let sizes = Sizes::from_vec(vec![in alloc; 1u64; files as usize]?);
    let mut tables = Vec::new(alloc);
    tables.push(sizes)?;
    Ok(FileSizes::from_vec(tables))
}
