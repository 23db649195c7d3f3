ghost use Rattle.std.specs.Prelude.{◌≡◌, ◌↔◌, ◌+◌, IsTrue, length};
ghost use Rattle.graph_model.specs.Legal.{IsDone};
ghost use Rattle.core_model.specs.Cores.{core_state};

use crate::{Deployed, RunTime};
use core_model::Step;
use event_log::Log;
use exec_graph::{Event, Graph, Sub};
use row_core::Bytes;
use slot_pool::Slots;
use std::alloc::Global;
use std::marker::Model;

/// What the master of one job keeps between two steps. The events behind the last flushed one stand
/// apart, so that a block is written from where they are.
#[derive(Debug, Drop)]
pub struct MasterState {
    pub(crate) alloc: Global,
    pub(crate) id: Bytes,
    pub(crate) text: Bytes,
    pub(crate) log: Log,
    pub(crate) graph: Graph,
    pub(crate) past: Vec<Event>,
    pub(crate) buffer: Vec<Event>,
    pub(crate) deployed: Vec<Deployed>,
    pub(crate) wanted: Vec<Sub>,
    pub(crate) slots: Slots,
    pub(crate) moment: u64,
    pub(crate) times: Vec<RunTime>,
    pub(crate) committed: bool,
    pub(crate) trace: Vec<Step>,
}

impl Model for MasterState {
    ghost use Rattle.std.specs.Prelude.{◌++◌, length};
    ghost use Rattle.core_state.specs.Masters.{IsKept, Master};
    ghost use Rattle.row_core.specs.contracts.expr.Expr as expr;
    ghost use Rattle.row_core.specs.contracts.pred.Pred as pred;
    ghost use Rattle.std.specs.Coded.{codes};

    ghost Value = { Master };

    ghost view = { λ m. record {
      job = record { id = m.id; text = m.text; given = m.graph.job.given };
      core = record {
        events = m.past.items ++ m.buffer.items;
        flushed = length m.past.items;
        log_end = m.log.end;
        attempts = m.graph.attempts;
        deployed = m.deployed.items;
        wanted = m.wanted.items;
        slots = m.slots;
        now = m.moment;
        times = m.times.items;
        committed = m.committed;
      };
      trace = m.trace.items;
    } };

    ghost invariant = { λ m. IsKept
        (record { id = m.id; text = m.text; given = m.graph.job.given })
        (m.past.items ++ m.buffer.items) m.buffer.items m.graph.job.state };

    ghost coded = { Prim.hlevel (codes, expr.the_row.coded, pred.the_row.coded) };
}

impl MasterState {
    /// Whether each node of the plan is in a complete vertex.
    pub fn complete(&self) -> bool
        ensures { IsTrue result ↔ IsDone self.now.job.given (core_state self.now.job self.now.core) }
    {
        self.graph.complete()
    }

    /// Whether the job's commit is known to stand.
    pub fn committed(&self) -> bool
        ensures { result ≡ self.now.core.committed }
    {
        self.committed
    }

    /// How many events are not flushed.
    pub fn unflushed(&self) -> u64
        ensures { self.now.core.flushed + result ≡ length self.now.core.events }
    {
        self.buffer.len() as u64
    }
}
