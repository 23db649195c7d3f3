ghost use Rattle.std.specs.Prelude.{◌≡◌, ◌≤◌, nat_lt, nat_eq, get_or, All};
ghost use Rattle.std.specs.List.{list_all};
ghost use Rattle.row_core.specs.Values.{width_limit};
ghost use Rattle.plan_model.specs.Widths.{width_of};
ghost use Rattle.plan_model.specs.Checks.{is_sink, takes, has_keys, may_rebalance, columns_fit, widths_agree};

use crate::widths::width_at;
use crate::{Aggs, Exprs, JoinKind, KeyPairs, Schema};
use row_core::{Bytes, Columns, Pred};

/// The greatest number of inputs of a union.
const UNION_LIMIT: usize = 64;

/// One operator of a plan; docs/SEMANTICS.md says what each gives.
#[derive(Debug, Drop)]
pub enum Op {
    Source { table: Bytes, columns: Schema },
    Filter { test: Pred },
    Project { exprs: Exprs },
    Explode { column: u32, separator: u8 },
    Union,
    Aggregate { keys: Columns, aggs: Aggs },
    Distinct,
    Join { kind: JoinKind, keys: KeyPairs },
    Sink { name: Bytes },
}

impl Op {
    pub fn is_sink(&self) -> bool
        ensures { result ≡ is_sink self.now }
    {
        matches!(self, Op::Sink { .. })
    }

    /// Whether the operator takes this many inputs.
    pub fn takes(&self, inputs: usize) -> bool
        ensures { result ≡ takes self.now inputs }
    {
        match self {
            Op::Source { .. } => inputs == 0,
            Op::Union => 2 <= inputs && inputs <= UNION_LIMIT,
            Op::Join { .. } => inputs == 2,
            _ => inputs == 1,
        }
    }

    /// Whether the operator has the keys that it needs.
    pub fn has_keys(&self) -> bool
        ensures { result ≡ has_keys self.now }
    {
        match self {
            Op::Aggregate { keys, .. } => !keys.as_slice().is_empty(),
            Op::Join { keys, .. } => !keys.as_slice().is_empty(),
            _ => true,
        }
    }

    /// Whether the rows for the operator may be spread anew over its subtasks.
    pub fn may_rebalance(&self) -> bool
        ensures { result ≡ may_rebalance self.now }
    {
        matches!(
            self,
            Op::Filter { .. } | Op::Project { .. } | Op::Explode { .. } | Op::Sink { .. }
        )
    }

    /// Whether the columns that the operator names are below the widths of its inputs.
    pub fn columns_fit(&self, widths: &[u32]) -> bool
        ensures { result ≡ columns_fit self.now widths.now }
    {
        let first = width_at(widths, 0);
        match self {
            Op::Filter { test } => test.fits(first),
            Op::Project { exprs } => exprs.fit(first),
            Op::Explode { column, .. } => *column < first,
            Op::Aggregate { keys, aggs } => { columns_below(keys, first) && aggs.fit(first) }
            Op::Join { keys, .. } => keys.fit(first, width_at(widths, 1)),
            _ => true,
        }
    }

    /// Whether the inputs of a union have one width.
    pub fn widths_agree(&self, widths: &[u32]) -> bool
        ensures { result ≡ widths_agree self.now widths.now }
    {
        match self {
            Op::Union => all_same(widths),
            _ => true,
        }
    }

    /// How many values the operator's rows have, for inputs of at most 256 values a row.
    pub fn width(&self, widths: &[u32]) -> u64
        requires { All (λ width. width ≤ width_limit) widths.now }
        ensures { result ≡ width_of self.now widths.now }
    {
        let first = width_at(widths, 0) as u64;
        match self {
            Op::Source { columns, .. } => columns.as_slice().len() as u64,
            Op::Project { exprs } => exprs.as_slice().len() as u64,
            Op::Aggregate { keys, aggs } => {
                keys.as_slice().len() as u64 + aggs.as_slice().len() as u64
            }
            Op::Join { kind, .. } => kind.width(first, width_at(widths, 1) as u64),
            _ => first,
        }
    }
}

fn columns_below(columns: &Columns, width: u32) -> bool
    ensures { result ≡ list_all (λ column. nat_lt column width) columns.now }
{
    columns.as_slice().iter().all(|column| *column < width)
}

fn all_same(widths: &[u32]) -> bool
    ensures { result ≡ list_all (nat_eq (get_or widths.now 0 0)) widths.now }
{
    let first = width_at(widths, 0);
    widths.iter().all(|width| first == *width)
}
