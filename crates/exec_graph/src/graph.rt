ghost use Rattle.std.specs.Prelude.{◌≡◌, ◌≢◌, ◌↔◌, ◌<◌, ◌+◌, ◌^◌, ◌∷◌, [], List, All, IfErr, IfNone, IfOk, IfSome, IsTrue, None, OnErr, OnOk, Some, count_by, length};
ghost use Rattle.attempt_names.specs.Attempts.{no_attempts, tries};
ghost use Rattle.estate.specs.declared.part_name.PartName.{PartName};
ghost use Rattle.event_graph.specs.declared.graph_error.GraphError.TheVariants.{Illegal, NotCover};
ghost use Rattle.event_graph.specs.declared.verdict.Verdict.TheVariants.{Win as Won, Stale, Double};
ghost use Rattle.event_graph.specs.Graphs.{MayDeploy, Refuses, Takes};
ghost use Rattle.exec_graph.specs.Counts.{AreAllSubs, is_unwon};
ghost use Rattle.exec_graph.specs.Deploys.{IsDeploy, without_name};
ghost use Rattle.graph_model.specs.declared.event.Event.TheVariants.{Opened, Made, Widened, Decided, Trouble, Ended, Done, Reset};
ghost use Rattle.graph_model.specs.declared.sub.Sub.{Sub as OneSub};
ghost use Rattle.graph_model.specs.Legal.{IsDecidable, IsDone};
ghost use Rattle.graph_model.specs.Reads.{reads_from, shape_at};
ghost use Rattle.graph_model.specs.States.{started, sub_of, vertex_at, winner_name};
ghost use Rattle.graph_vertices.specs.Winning.{IsFirstStale, IsPresent};
ghost use Rattle.ready_subtasks.specs.Marks.{IsDecidedSub};
ghost use Rattle.ready_subtasks.specs.Ready.{ready_subs};
ghost use Rattle.rect_cover.specs.Covers.{IsCover};

use crate::{refresh, touched_by, touched_by_all};
use attempt_names::AttemptNames;
use estate::{EdgeSizes, Names, PartName};
use event_graph::{EventGraph, GraphError, Verdict};
use graph_model::{Cause, FileSizes, Sub, Subs};
use number_set::NumberSet;
use plan_model::{GoodPlan, Settings, Side};
use ready_subtasks::ReadySubs;
use rect_cover::Assignment;
use region_closure::closures_are_one;
use row_core::NoMemory;
use std::alloc::Global;
use std::marker::Model;
use vertex_builder::NodeList;

/// A job that is started, with what was made, decided and won of it, the attempts of its subtasks,
/// and which subtasks are ready for one. A call that answers an error changes nothing.
/// docs/SEMANTICS.md says which events are legal.
#[derive(Debug, Drop)]
pub struct Graph {
    alloc: Global,
    job: EventGraph,
    attempts: AttemptNames,
    ready: ReadySubs,
}

impl Model for Graph {
    ghost use Rattle.exec_graph.specs.Graphs.{GraphState};
    ghost use Rattle.exec_graph.specs.Kept.{IsKept};
    ghost use Rattle.row_core.specs.contracts.expr.Expr as expr;
    ghost use Rattle.row_core.specs.contracts.pred.Pred as pred;
    ghost use Rattle.std.specs.Coded.{codes};

    ghost Value = { GraphState };

    ghost view = { λ g. record { job = g.job; attempts = g.attempts } };

    ghost invariant = { λ g. IsKept g.job g.attempts g.ready };

    ghost coded = { Prim.hlevel (codes, expr.the_row.coded, pred.the_row.coded) };
}

impl Graph {
    /// A job that is started, of which nothing is made. `files` has one list of sizes for each
    /// table of the plan.
    pub fn new(
        alloc: Global,
        plan: GoodPlan,
        settings: Settings,
        files: &FileSizes,
    ) -> Result<Self, NoMemory>
        requires few { All (λ sizes. length sizes < 2 ^ 32) files.now }
        ensures given { IfOk result (λ graph.
            graph.job.given ≡ record { nodes = plan; settings = settings; files = files.now }) }
        ensures state { IfOk result (λ graph. graph.job.state ≡ started) }
        ensures attempts { IfOk result (λ graph. graph.attempts ≡ no_attempts) }
    {
        let ready = ReadySubs::new(alloc, plan.nodes().len())?;
        let job = EventGraph::new(alloc, plan, settings, files)?;
        let attempts = AttemptNames::new(alloc);
        Ok(Graph {
            alloc,
            job,
            attempts,
            ready,
        })
    }

    /// The job and the state that its events lead to.
    pub fn job(&self) -> &EventGraph
        ensures { result.now ≡ self.now.job }
    {
        &self.job
    }

    /// Opens an epoch.
    pub fn opened(&mut self, epoch: u32) -> Result<(), GraphError>
        ensures ok { OnOk result (Takes self.old.job (Opened epoch) self.new.job) }
        ensures err { IfErr result (λ error.
            (error ≡ Illegal) × Refuses self.old.job (Opened epoch) self.new.job) }
        ensures attempts { self.new.attempts ≡ self.old.attempts }
    {
        self.job.opened(epoch)
    }

    /// Makes the next vertex, of a chain whose head can be made.
    pub fn made(&mut self, vertex: u32, nodes: &NodeList) -> Result<(), GraphError>
        ensures ok { OnOk result (Takes self.old.job (Made vertex nodes.now) self.new.job) }
        ensures same { OnErr result (self.new.job ≡ self.old.job) }
        ensures not_cover { IfErr result (λ error. error ≢ NotCover) }
        ensures illegal { IfErr result (λ error. error ≡ Illegal
            → Refuses self.old.job (Made vertex nodes.now) self.new.job) }
        ensures attempts { self.new.attempts ≡ self.old.attempts }
    {
        self.job.is_kept();
        self.job.made(vertex, nodes)
    }

    /// Decides a vertex: which cells each of its subtasks reads. They are ready from then on.
    pub fn decided(&mut self, vertex: u32, assignment: &Assignment) -> Result<(), GraphError>
        ensures ok { OnOk result (Takes self.old.job (Decided vertex assignment.now) self.new.job) }
        ensures same { OnErr result (self.new.job ≡ self.old.job) }
        ensures illegal { IfErr result (λ error. error ≡ Illegal
            → IsDecidable self.old.job.given self.old.job.state vertex → ⊥) }
        ensures not_cover { IfErr result (λ error. error ≡ NotCover
            → IsDecidable self.old.job.given self.old.job.state vertex
            × (IsCover (shape_at self.old.job.given self.old.job.state.vertices
            (vertex_at self.old.job.state.vertices vertex).vertex) assignment.now → ⊥)) }
        ensures attempts { self.new.attempts ≡ self.old.attempts }
    {
        self.job.is_kept();
        let own = NumberSet::full(self.alloc, assignment.as_slice().len())?;
        self.job.decided(vertex, assignment)?;
        self.ready.decide(vertex, own);
        Ok(())
    }

    /// Chains a join after its probe side; this side of it is read whole.
    pub fn widened(&mut self, node: u32, side: Side) -> Result<(), GraphError>
        ensures ok { OnOk result (Takes self.old.job (Widened node side) self.new.job) }
        ensures same { OnErr result (self.new.job ≡ self.old.job) }
        ensures not_cover { IfErr result (λ error. error ≢ NotCover) }
        ensures illegal { IfErr result (λ error. error ≡ Illegal
            → Refuses self.old.job (Widened node side) self.new.job) }
        ensures attempts { self.new.attempts ≡ self.old.attempts }
    {
        self.job.widened(node, side)
    }

    /// Takes the winners of the subtasks that run again where these parts are gone. It costs a look at
    /// each part, as much as those that are gone or run again have readers and producers, and a sort
    /// of those that run again. No other subtask is looked at.
    pub fn reset(&mut self, gone: &Names, subtasks: &Subs) -> Result<(), GraphError>
        ensures ok { OnOk result (Takes self.old.job (Reset gone.now subtasks.now) self.new.job) }
        ensures same { OnErr result (self.new.job ≡ self.old.job) }
        ensures illegal { IfErr result (λ error. error ≡ Illegal
            → Refuses self.old.job (Reset gone.now subtasks.now) self.new.job) }
        ensures not_cover { IfErr result (λ error. error ≢ NotCover) }
        ensures attempts { self.new.attempts ≡ self.old.attempts }
    {
        closures_are_one();
        let again = self.job.closure(self.alloc, gone)?;
        let touched = touched_by_all(self.alloc, &self.job, again.as_slice())?;
        self.job.reset(gone, subtasks)?;
        let touched = touched.as_slice();
        refresh(&mut self.ready, &self.job, &self.attempts, touched);
        Ok(())
    }

    /// Notes a trouble.
    pub fn troubled(&mut self, cause: &Cause) -> Result<(), GraphError>
        ensures ok { OnOk result (Takes self.old.job (Trouble cause.now) self.new.job) }
        ensures err { IfErr result (λ error.
            (error ≡ Illegal) × Refuses self.old.job (Trouble cause.now) self.new.job) }
        ensures attempts { self.new.attempts ≡ self.old.attempts }
    {
        self.job.troubled(cause)
    }

    /// Ends the job: finished, or failed.
    pub fn ended(&mut self, failed: bool) -> Result<(), GraphError>
        ensures ok { OnOk result (Takes self.old.job (Ended failed) self.new.job) }
        ensures err { IfErr result (λ error.
            (error ≡ Illegal) × Refuses self.old.job (Ended failed) self.new.job) }
        ensures attempts { self.new.attempts ≡ self.old.attempts }
    {
        self.job.ended(failed)
    }

    /// Whether each node is in a complete vertex. It costs the same for every graph.
    pub fn complete(&self) -> bool
        ensures { IsTrue result ↔ IsDone self.now.job.given self.now.job.state }
    {
        self.job.complete()
    }

    /// How many of the parts that a decided subtask reads have no winner. It costs the same for every
    /// subtask.
    pub fn missing(&self, sub: Sub) -> usize
        requires { IsDecidedSub self.now.job.state.vertices sub }
        ensures { result ≡ count_by (is_unwon self.now.job.state.vertices)
            (reads_from self.now.job.state.vertices sub) }
    {
        let numbers = self.job.numbers();
        numbers.missing(numbers.number(sub))
    }

    /// How many subtasks of decided vertices have no winner. It costs the same for every graph.
    pub fn unwon(&self) -> usize
        ensures { (subs : List OneSub) × AreAllSubs self.now.job.state.vertices subs
            × (result ≡ count_by (is_unwon self.now.job.state.vertices) subs) }
    {
        self.job.numbers().tasks().undone()
    }

    /// Takes an attempt that ran to its end, if it is the first of its subtask and read the present
    /// winners' parts. `Double` names the winner that stands, `Stale` the first input that is no
    /// winner's part any more. It costs as much as the subtask has inputs and readers.
    pub fn finished(
        &mut self,
        name: PartName,
        inputs: &Names,
        sizes: &EdgeSizes,
    ) -> Result<Verdict, GraphError>
        ensures win { IfOk result (λ verdict. verdict ≡ Won
            → Takes self.old.job (Done name inputs.now sizes.now) self.new.job) }
        ensures double { (winner : PartName) → IfOk result (λ verdict. verdict ≡ Double winner
            → (winner_name self.old.job.state.vertices (sub_of name) ≡ Some winner)
            × (self.new.job ≡ self.old.job)) }
        ensures stale { (input : PartName) → IfOk result (λ verdict. verdict ≡ Stale input
            → (winner_name self.old.job.state.vertices (sub_of name) ≡ None)
            × IsFirstStale self.old.job.state.vertices inputs.now input
            × (self.new.job ≡ self.old.job)) }
        ensures same { OnErr result (self.new.job ≡ self.old.job) }
        ensures not_cover { IfErr result (λ error. error ≢ NotCover) }
        ensures illegal { IfErr result (λ error. error ≡ Illegal
            → (winner_name self.old.job.state.vertices (sub_of name) ≡ None)
            × All (IsPresent self.old.job.state.vertices) inputs.now
            × Refuses self.old.job (Done name inputs.now sizes.now) self.new.job) }
        ensures attempts { self.new.attempts ≡ self.old.attempts }
    {
        let touched = touched_by(self.alloc, &self.job, Sub::of(name))?;
        let verdict = self.job.finished(name, inputs, sizes)?;
        match verdict {
            Verdict::Win => {
                let touched = touched.as_slice();
                refresh(&mut self.ready, &self.job, &self.attempts, touched);
                Ok(Verdict::Win)
            }
            _ => Ok(verdict),
        }
    }

    /// Gives a further attempt of a subtask its name, and the names of the parts that it reads: for
    /// each input but files, in order, the winners of the producers that its rects touch. The
    /// attempt runs from then on. The worker and the time, in milliseconds, are the caller's.
    pub fn deployed(
        &mut self,
        vertex: u32,
        subtask: u32,
        epoch: u32,
        worker: u32,
        now: u64,
    ) -> Result<(PartName, Names), GraphError>
        requires { tries self.old.attempts.given vertex subtask epoch + 1 < 2 ^ 32 }
        ensures may { OnOk result (MayDeploy self.old.job
            (record { vertex = vertex; subtask = subtask }) epoch) }
        ensures ok { IfOk result (λ (name, inputs).
            IsDeploy self.old.job.state.vertices self.old.attempts self.new.attempts
            (record { vertex = vertex; subtask = subtask }) epoch name inputs) }
        ensures job { self.new.job ≡ self.old.job }
        ensures same { OnErr result (self.new.attempts ≡ self.old.attempts) }
        ensures not_cover { IfErr result (λ error. error ≢ NotCover) }
        ensures illegal { IfErr result (λ error. error ≡ Illegal
            → MayDeploy self.old.job
            (record { vertex = vertex; subtask = subtask }) epoch → ⊥) }
    {
        let _ = (worker, now);
        let sub = Sub { vertex, subtask };
        if !self.job.may_deploy(sub, epoch) {
            return Err(GraphError::Illegal);
        }
        let inputs = self.job.inputs_of(sub)?;
        let name = self.attempts.deploy(vertex, subtask, epoch)?;
        self.ready.set(sub, false);
        Ok((name, inputs))
    }

    /// The attempt runs no more.
    pub fn dropped(&mut self, name: PartName)
        ensures job { self.new.job ≡ self.old.job }
        ensures attempts { self.new.attempts ≡ without_name self.old.attempts name }
    {
        self.attempts.drop_name(name);
        let sub = Sub::of(name);
        if self.job.has(sub) {
            refresh(&mut self.ready, &self.job, &self.attempts, &[sub]);
        }
    }

    /// The subtasks that are ready for an attempt, by vertex and then by number: decided, without a
    /// winner or an attempt that runs, and with winners of all that they read. It costs as much as
    /// they are.
    pub fn ready(&self) -> Result<Subs, NoMemory>
        ensures { IfOk result (λ subs.
            subs ≡ ready_subs self.now.job.state.vertices self.now.attempts) }
    {
        self.ready.subs(self.alloc)
    }

    /// The first of those that are ready. It takes as many steps as the numbers of vertices and of
    /// subtasks have binary digits.
    pub fn first_ready(&self) -> Option<Sub>
        ensures some { IfSome result (λ sub. (rest : List OneSub)
            × (ready_subs self.now.job.state.vertices self.now.attempts ≡ sub ∷ rest)) }
        ensures none { IfNone result
            (ready_subs self.now.job.state.vertices self.now.attempts ≡ []) }
    {
        self.ready.first()
    }
}
