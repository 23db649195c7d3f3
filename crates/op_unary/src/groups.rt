ghost use Rattle.std.specs.Prelude.{[], ℕ, List, IfOk};
ghost use Rattle.row_core.specs.Bags.{SameBag};
ghost use Rattle.bag_laws.specs.Rows.{OneRow};
ghost use Rattle.plan_model.specs.Operators.{aggregated};
ghost use Rattle.plan_model.specs.declared.agg.Agg.{Agg as OneAgg};
ghost use Rattle.op_unary.specs.Groups.{GainsRows, StandsFor};

use crate::group::Group;
use crate::grouping::with_runs;
use crate::keys::by_key;
use crate::merging_groups::{into_rows, merge_groups};
use plan_model::Agg;
use row_core::{NoMemory, Row, Rows};
use std::alloc::Global;
use std::marker::Model;

// So few groups are not worth merging_groups.
const FEW: usize = 1024;

/// The hash table of an aggregate whose rows come batch by batch. The rows aren't kept: only an
/// accumulator for each key and aggregate.
#[derive(Drop)]
pub struct Groups<'a> {
    keys: &'a [u32],
    aggs: &'a [Agg],
    groups: Vec<Group>,
    // how many of them there were when they were last merged, one for each key
    settled: usize,
}

impl<'a> Model for Groups<'a> {
    ghost use Rattle.op_unary.specs.Groups.{GroupTable};

    ghost Value = { GroupTable };

    ghost view = { λ table. record {
      keys = table.keys.now;
      aggs = table.aggs.now;
      groups = table.groups.items;
      settled = table.settled;
    } };
}

impl<'a> Groups<'a> {
    pub fn new(alloc: Global, keys: &'a [u32], aggs: &'a [Agg]) -> Self
        ensures { StandsFor keys.now aggs.now result [] }
    {
        Groups {
            keys,
            aggs,
            groups: Vec::new(alloc),
            settled: 0,
        }
    }

    /// The same with further rows. Fails for want of memory, or where the rows of one key are more than
    /// 64 bits can count or their sum leaves 128 bits.
    pub fn with_rows(self, alloc: Global, rows: &[Row]) -> Result<Self, NoMemory>
        ensures { IfOk result (λ table. GainsRows self.entry table rows.now) }
    {
        let Groups {
            keys,
            aggs,
            groups,
            settled,
        } = self;
        let sorted = by_key(alloc, keys, rows)?;
        let groups = with_runs(alloc, keys, aggs, groups, sorted.as_slice())?;
        if groups.len() < settled.max(FEW).saturating_mul(2) {
            return Ok(Groups {
                keys,
                aggs,
                groups,
                settled,
            });
        }
        let groups = merge_groups(alloc, groups)?;
        let settled = groups.len();
        Ok(Groups {
            keys,
            aggs,
            groups,
            settled,
        })
    }

    /// One row for each key: the key, then the aggregates of its rows. Fails as `with_rows` does.
    pub fn into_rows(self, alloc: Global) -> Result<Rows, NoMemory>
        ensures { IfOk result (λ rows. (keys : List ℕ) (aggs : List OneAgg) (all : List OneRow)
            → StandsFor keys aggs self.entry all → SameBag rows (aggregated keys aggs all)) }
    {
        let groups = merge_groups(alloc, self.groups)?;
        into_rows(alloc, groups)
    }
}
