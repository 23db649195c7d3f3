ghost use Rattle.std.specs.Prelude.{◌≡◌};
ghost use Rattle.hash_join.specs.Fits.{JoinFits};
ghost use Rattle.hash_join.specs.Once.{join_fits_once};
ghost use Rattle.row_steps.specs.Chained.{ops_of};

use crate::probing::Probe;
use crate::pushing::push_probed;
use plan_model::Op;
use row_collector::Collector;
use row_core::{Bytes, NoMemory};
use row_groups::put_key;
use row_set::emptied;
use row_view::ValueRef;
use std::alloc::Global;
use std::mem;

/// Takes the probe rows of a join, and gives a collector what the steps behind the join give on what
/// comes of each row.
#[derive(Drop)]
pub struct Joiner<'a, C: Collector + Drop> {
    alloc: Global,
    probe: &'a Probe<'a>,
    width: u32,
    steps: &'a [&'a Op],
    // room for the bytes of a key
    room: Bytes,
    out: C,
    ghost fits: { JoinFits probe.now.rule width probe.now.table.now.width (ops_of steps.now) (C.width out) } by { join_fits_once probe.now.rule width probe.now.table.now.width (ops_of steps.now) (C.width out) },
}

impl<'a, C: Collector + Drop> Joiner<'a, C> {
    ghost use Rattle.std.specs.Prelude.{[], List};
    ghost use Rattle.bag_laws.specs.Rows.{OneRow};
    ghost use Rattle.hash_join.specs.Joined.{probe_gives};
    ghost use Rattle.hash_join.specs.Tables.{HoldsTable};
    ghost use Rattle.row_steps.specs.Chained.{chained};

    /// Probe rows of this width go through the steps to the collector.
    pub fn new(alloc: Global, probe: &'a Probe<'a>, width: u32, steps: &'a [&'a Op], out: C) -> Self
        requires { JoinFits probe.now.rule width probe.now.table.now.width (ops_of steps.now)
            (C.width out) }
        ensures width { result.width ≡ width }
        ensures probe { result.probe.now ≡ probe.now }
        ensures steps { ops_of result.steps.now ≡ ops_of steps.now }
        ensures out { result.out ≡ out }
    {
        Joiner {
            alloc,
            probe,
            width,
            steps,
            room: Bytes::new(alloc),
            out,
        }
    }

    /// The collector behind the join.
    pub fn into_out(self) -> C
        ensures { result ≡ self.entry.out }
    {
        self.out
    }
}

impl<'a, C: Collector + Drop> Collector for Joiner<'a, C> {
    ghost use Rattle.std.specs.Prelude.{List};
    ghost use Rattle.bag_laws.specs.Rows.{OneRow};
    ghost use Rattle.hash_join.specs.Joined.{probe_gives};
    ghost use Rattle.hash_join.specs.Tables.{HoldsTable};
    ghost use Rattle.hash_join.specs.declared.probing.Probe.{Probe as OneProbe};
    ghost use Rattle.plan_model.specs.declared.op.Op.{Op as OneOp};
    ghost use Rattle.row_steps.specs.Chained.{chained};

    ghost width = { λ joiner. joiner.width };

    ghost Kept = { OneProbe × List OneOp × C.Kept };

    ghost kept = { λ joiner. (joiner.probe.now, ops_of joiner.steps.now, C.kept joiner.out) };

    ghost holds = { λ joiner rows. (built : List OneRow) → HoldsTable joiner.probe.now.table.now built
        → C.holds joiner.out
        (chained (ops_of joiner.steps.now) (probe_gives joiner.probe.now built rows)) };

    fn collect(&mut self, row: &[ValueRef]) -> Result<(), NoMemory> {
        let room = mem::replace(&mut self.room, Bytes::new(self.alloc));
        let mut key = emptied(room);
        put_key(&mut key, self.probe.columns(), row)?;
        let bytes = key.as_slice();
        push_probed(
            self.alloc,
            self.probe,
            self.steps,
            bytes,
            row,
            &mut self.out,
        )?;
        self.room = key;
        Ok(())
    }
}
