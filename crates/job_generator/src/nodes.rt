ghost use Rattle.std.specs.Prelude.{◌≡◌, false, codes, IfOk};
ghost use Rattle.job_generator.specs.GeneratedJob.{column, node, orders, large_orders, cities, with_cities, by_city, totals, generated_nodes};

use plan_model::{Agg, Aggs, Column, JoinKind, KeyPairs, Kind, Node, Op, Schema};
use row_core::{Bytes, Cmp, Columns, Expr, NoMemory, Pred, Value};
use std::alloc::Global;

/// The nodes of the plan, which is one for all sizes.
pub fn nodes(alloc: Global) -> Result<Vec<Node>, NoMemory>
    ensures { IfOk result (λ nodes. nodes.items ≡ generated_nodes) }
{
    Ok(vec![in alloc;
        orders(alloc)?,
        large_orders(alloc)?,
        cities(alloc)?,
        with_cities(alloc)?,
        by_city(alloc)?,
        totals(alloc)?,
    ]?)
}

fn orders(alloc: Global) -> Result<Node, NoMemory>
    ensures { IfOk result (λ node. node ≡ orders) }
{
    let columns = vec![in alloc;
        column(alloc, "id", Kind::IntKind)?,
        column(alloc, "city", Kind::IntKind)?,
        column(alloc, "amount", Kind::IntKind)?,
    ]?;
    node(alloc, source(alloc, "orders", columns)?, &[])
}

fn large_orders(alloc: Global) -> Result<Node, NoMemory>
    ensures { IfOk result (λ node. node ≡ large_orders) }
{
    let test = Pred::Test(Cmp::Ge, Expr::Col(2), Expr::Const(Value::Int(20)));
    node(alloc, Op::Filter { test }, &[0])
}

fn cities(alloc: Global) -> Result<Node, NoMemory>
    ensures { IfOk result (λ node. node ≡ cities) }
{
    let columns = vec![in alloc;
        column(alloc, "city", Kind::IntKind)?,
        column(alloc, "name", Kind::TextKind)?,
    ]?;
    node(alloc, source(alloc, "cities", columns)?, &[])
}

fn with_cities(alloc: Global) -> Result<Node, NoMemory>
    ensures { IfOk result (λ node. node ≡ with_cities) }
{
    let kind = JoinKind::Inner;
    let keys = KeyPairs::from_vec(vec![in alloc; (1, 0)]?);
    node(alloc, Op::Join { kind, keys }, &[1, 2])
}

fn by_city(alloc: Global) -> Result<Node, NoMemory>
    ensures { IfOk result (λ node. node ≡ by_city) }
{
    let keys = Columns::from_vec(vec![in alloc; 4]?);
    let aggs = Aggs::from_vec(vec![in alloc; Agg::Count, Agg::Sum(2)]?);
    node(alloc, Op::Aggregate { keys, aggs }, &[3])
}

fn totals(alloc: Global) -> Result<Node, NoMemory>
    ensures { IfOk result (λ node. node ≡ totals) }
{
    let name = Bytes::from_slice(alloc, b"totals")?;
    node(alloc, Op::Sink { name }, &[4])
}

fn source(alloc: Global, table: &str, columns: Vec<Column>) -> Result<Op, NoMemory>
    ensures { IfOk result (λ op. op ≡ Op.Source table.now columns.items) }
{
    Ok(Op::Source {
        table: Bytes::from_slice(alloc, table.as_bytes())?,
        columns: Schema::from_vec(columns),
    })
}

fn column(alloc: Global, name: &str, kind: Kind) -> Result<Column, NoMemory>
    ensures { IfOk result (λ made. made ≡ column name.now kind) }
{
    let name = Bytes::from_slice(alloc, name.as_bytes())?;
    Ok(Column { name, kind })
}

fn node(alloc: Global, op: Op, inputs: &[u32]) -> Result<Node, NoMemory>
    ensures { IfOk result (λ made. made ≡ node op inputs.now) }
{
    Ok(Node {
        op,
        inputs: Columns::from_vec(inputs.to_vec(alloc)?),
        rebalance: false,
    })
}
