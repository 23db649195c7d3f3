ghost use Rattle.std.specs.Prelude.{◌≡◌, ℕ, List, IfOk};
ghost use Rattle.row_core.specs.Bags.{SameBag};
ghost use Rattle.bag_laws.specs.Rows.{OneRow};
ghost use Rattle.plan_model.specs.Joins.{matches, nulls};

use crate::emitting::emit;
use crate::keyed::{left_columns, right_columns};
use crate::row_parts::null_row;
use crate::rule::Rule;
use crate::sorted_side::SortedSide;
use row_core::{NoMemory, Row, Rows};
use std::alloc::Global;

/// What the rows of one side are to give, with the rows of the other in the order of their keys.
#[derive(Drop)]
pub struct Probe<'a> {
    pub rule: Rule,
    pub padding: Row,
    pub columns: Vec<u32>,
    pub side: SortedSide<'a>,
}

impl<'a> Probe<'a> {
    ghost use Rattle.op_join.specs.Probes.{probe_outputs};
    ghost use Rattle.op_join.specs.Sides.{outputs};

    /// The left rows are to probe the right ones, which have this width.
    pub fn by_left(
        alloc: Global,
        rule: Rule,
        width: u32,
        keys: &[(u32, u32)],
        right: &'a [Row],
    ) -> Result<Self, NoMemory>
        ensures { IfOk result (λ probe. (rows : List OneRow) → SameBag (probe_outputs probe rows)
            (outputs rule (nulls width) (matches keys.now) rows right.now)) }
    {
        let columns = left_columns(alloc, keys)?;
        let others = right_columns(alloc, keys)?;
        Ok(Probe {
            rule,
            padding: null_row(alloc, width)?,
            columns,
            side: SortedSide::new(alloc, others, right)?,
        })
    }

    /// The right rows are to probe the left ones, which have this width.
    pub fn by_right(
        alloc: Global,
        rule: Rule,
        width: u32,
        keys: &[(u32, u32)],
        left: &'a [Row],
    ) -> Result<Self, NoMemory>
        ensures { IfOk result (λ probe. (rows : List OneRow) → SameBag (probe_outputs probe rows)
            (outputs rule (nulls width) (λ row other. matches keys.now other row) rows left.now)) }
    {
        let columns = right_columns(alloc, keys)?;
        let others = left_columns(alloc, keys)?;
        Ok(Probe {
            rule,
            padding: null_row(alloc, width)?,
            columns,
            side: SortedSide::new(alloc, others, left)?,
        })
    }

    pub fn rows(&self, alloc: Global, rows: &[Row]) -> Result<Rows, NoMemory>
        ensures { IfOk result (λ made. made ≡ probe_outputs self.now rows.now) }
    {
        let mut out = Rows::new(alloc);
        let mut last = 0;
        for row in rows {
            let matches = self
                .side
                .matches_of(self.columns.as_slice(), row, &mut last);
            emit(alloc, &mut out, self.rule, &self.padding, row, matches)?;
        }
        Ok(out)
    }
}
