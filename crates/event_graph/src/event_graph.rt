ghost use Rattle.std.specs.Prelude.{All, None, true, false, ◌≡◌, ◌≢◌, ◌↔◌, ◌<◌, ◌≤◌, ◌^◌, ◌++◌, ◌∷◌, [], ℕ, IsTrue, Some, length, OnOk, OnErr, IfOk, IfErr};
ghost use Rattle.estate.specs.declared.part_name.PartName.{PartName};
ghost use Rattle.event_graph.specs.declared.graph_error.GraphError.TheVariants.{Illegal, NotCover};
ghost use Rattle.event_graph.specs.declared.verdict.Verdict.TheVariants.{Win as Won, Stale, Double};
ghost use Rattle.event_graph.specs.Graphs.{MayDeploy, Refuses, Takes};
ghost use Rattle.graph_model.specs.Closures.{IsClosure};
ghost use Rattle.graph_model.specs.Valid.{IsValid};
ghost use Rattle.event_graph.specs.Numbers.{IsNumbering, is_fed};
ghost use Rattle.plan_model.specs.Checks.{plan_faults};
ghost use Rattle.graph_vertices.specs.Winning.{IsFirstStale, IsPresent};
ghost use Rattle.graph_model.specs.declared.event.Event.TheVariants.{Opened, Made, Widened, Decided, Trouble, Ended, Done, Reset};
ghost use Rattle.graph_model.specs.Legal.{HasCause, IsDecidable, IsDone, IsNamed, IsOpen, IsUnfinished, MayEnd, MayWiden, MayWin};
ghost use Rattle.rect_cover.specs.Covers.{IsCover};
ghost use Rattle.graph_model.specs.Reads.{read_edges, shape_at};
ghost use Rattle.std.specs.List.{AllZip};
ghost use Rattle.graph_model.specs.States.{started, winner_name, subtasks_at, sub_of, vertex_at};

use crate::{
    GraphError, Numbers, Verdict, is_fed, parts_read, producers_of, reads_parts, reopen_all,
};
use estate::{EdgeSizes, Names, PartName};
use graph_model::{Cause, FileSizes, MadeVertex, Sub, Subs, SubtaskStates, Win};
use graph_vertices::{
    MadeVertices, can_widen, copied_files, copied_names, copied_sizes, next_vertex, shape_of,
    unwon_subtasks,
};
use plan_model::{GoodPlan, Settings, Side};
use rect_cover::{Assignment, covers};
use region_closure::{closure_of, is_closure};
use row_core::NoMemory;
use std::alloc::Global;
use std::marker::Model;
use vertex_builder::{NodeList, Widening, Widenings};

/// A job that is started, with what was made, decided and won of it. A call that answers an error
/// changes nothing. docs/SEMANTICS.md says which events are legal.
#[derive(Debug, Drop)]
pub struct EventGraph {
    alloc: Global,
    plan: GoodPlan,
    settings: Settings,
    files: FileSizes,
    epoch: u32,
    troubles: u32,
    ended: Option<bool>,
    widened: Widenings,
    dones: Vec<PartName>,
    vertices: MadeVertices,
    numbers: Numbers,
    undecided: usize,
}

impl Model for EventGraph {
    ghost use Rattle.event_graph.specs.Graphs.{JobState};
    ghost use Rattle.event_graph.specs.Kept.{IsKept};
    ghost use Rattle.row_core.specs.contracts.expr.Expr as expr;
    ghost use Rattle.row_core.specs.contracts.pred.Pred as pred;
    ghost use Rattle.std.specs.Coded.{codes};

    ghost Value = { JobState };

    ghost view = { λ g. record {
      given = record { nodes = g.plan; settings = g.settings; files = g.files };
      state = record {
        epoch = g.epoch;
        vertices = g.vertices;
        widened = g.widened;
        dones = g.dones.items;
        troubles = g.troubles;
        ended = g.ended;
      };
    } };

    ghost invariant = { λ g. IsKept
        (record { nodes = g.plan; settings = g.settings; files = g.files })
        (record {
          epoch = g.epoch;
          vertices = g.vertices;
          widened = g.widened;
          dones = g.dones.items;
          troubles = g.troubles;
          ended = g.ended;
        })
        g.numbers g.undecided };

    ghost coded = { Prim.hlevel (codes, expr.the_row.coded, pred.the_row.coded) };
}

impl EventGraph {
    /// A job that is started, of which nothing is made. `files` has one list of sizes for each
    /// table of the plan.
    pub fn new(
        alloc: Global,
        plan: GoodPlan,
        settings: Settings,
        files: &FileSizes,
    ) -> Result<Self, NoMemory>
        requires few { All (λ sizes. length sizes < 2 ^ 32) files.now }
        ensures given { IfOk result (λ graph.
            graph.given ≡ record { nodes = plan; settings = settings; files = files.now }) }
        ensures state { IfOk result (λ graph. graph.state ≡ started) }
    {
        let files = copied_files(alloc, files)?;
        let undecided = plan.nodes().len();
        let widened = Widenings::from_vec(Vec::new(alloc));
        let dones = Vec::new(alloc);
        let vertices = MadeVertices::new(alloc);
        let numbers = Numbers::new(alloc);
        Ok(EventGraph {
            alloc,
            plan,
            settings,
            files,
            epoch: 0,
            troubles: 0,
            ended: None,
            widened,
            dones,
            vertices,
            numbers,
            undecided,
        })
    }

    // Neither ended nor with its troubles spent.
    fn is_open(&self) -> bool
        ensures running { IsTrue result ↔ IsOpen self.now.given self.now.state }
        ensures few { IsTrue result → self.now.state.troubles ≤ 100 }
    {
        let limit = self.settings.restart_limit();
        match self.ended {
            Some(_) => false,
            None => self.troubles <= limit,
        }
    }

    /// Opens an epoch.
    pub fn opened(&mut self, epoch: u32) -> Result<(), GraphError>
        ensures ok { OnOk result (Takes self.old (Opened epoch) self.new) }
        ensures err { IfErr result (λ error.
            (error ≡ Illegal) × Refuses self.old (Opened epoch) self.new) }
    {
        if !self.is_open() || epoch <= self.epoch {
            return Err(GraphError::Illegal);
        }
        self.epoch = epoch;
        Ok(())
    }

    /// Ends the job: finished, or failed.
    pub fn ended(&mut self, failed: bool) -> Result<(), GraphError>
        ensures ok { OnOk result (Takes self.old (Ended failed) self.new) }
        ensures err { IfErr result (λ error.
            (error ≡ Illegal) × Refuses self.old (Ended failed) self.new) }
    {
        if !self.may_end(failed) {
            return Err(GraphError::Illegal);
        }
        self.ended = Some(failed);
        Ok(())
    }

    fn may_end(&self, failed: bool) -> bool
        ensures { IsTrue result ↔ MayEnd self.now.given self.now.state failed }
    {
        if failed {
            self.may_fail()
        } else {
            self.may_finish()
        }
    }

    fn may_fail(&self) -> bool
        ensures { IsTrue result ↔ MayEnd self.now.given self.now.state true }
    {
        let limit = self.settings.restart_limit();
        match self.ended {
            Some(_) => false,
            None => self.troubles == limit + 1,
        }
    }

    fn may_finish(&self) -> bool
        ensures { IsTrue result ↔ MayEnd self.now.given self.now.state false }
    {
        self.is_open() && self.complete()
    }

    /// Makes the next vertex, of a chain whose head can be made. It costs a look at each node and
    /// edge of the plan and at each vertex made before, but at none of their subtasks, and for each
    /// edge into a join at the widenings. A job's text has at most 256 nodes.
    pub fn made(&mut self, vertex: u32, nodes: &NodeList) -> Result<(), GraphError>
        ensures ok { OnOk result (Takes self.old (Made vertex nodes.now) self.new) }
        ensures same { OnErr result (self.new ≡ self.old) }
        ensures illegal { IfErr result (λ error. error ≡ Illegal
            → Refuses self.old (Made vertex nodes.now) self.new) }
        ensures not_cover { IfErr result (λ error. error ≢ NotCover) }
    {
        let count = self.vertices.as_slice().len();
        if !self.is_open() || vertex as usize != count {
            return Err(GraphError::Illegal);
        }
        let next = next_vertex(
            self.alloc,
            &self.plan,
            &self.widened,
            &self.settings,
            &self.vertices,
            nodes,
        )?;
        let Some(vertex) = next else {
            return Err(GraphError::Illegal);
        };
        self.numbers.cover(count + 1)?;
        self.vertices.push(MadeVertex {
            vertex,
            subtasks: SubtaskStates::from_vec(Vec::new(self.alloc)),
        })?;
        Ok(())
    }

    /// Decides a vertex: which cells each of its subtasks reads. Beside the test that it is a cover
    /// it costs, for each rect, a look at the producers from the first to the last that its subtask
    /// reads at that input.
    pub fn decided(&mut self, vertex: u32, assignment: &Assignment) -> Result<(), GraphError>
        ensures ok { OnOk result (Takes self.old (Decided vertex assignment.now) self.new) }
        ensures same { OnErr result (self.new ≡ self.old) }
        ensures illegal { IfErr result (λ error. error ≡ Illegal
            → IsDecidable self.old.given self.old.state vertex → ⊥) }
        ensures not_cover { IfErr result (λ error. error ≡ NotCover
            → IsDecidable self.old.given self.old.state vertex
            × (IsCover (shape_at self.old.given self.old.state.vertices
            (vertex_at self.old.state.vertices vertex).vertex) assignment.now → ⊥)) }
    {
        if !self.is_decidable(vertex) {
            return Err(GraphError::Illegal);
        }
        let made = &self.vertices.as_slice()[vertex as usize].vertex;
        let nodes = made.nodes.as_slice().len();
        let shape = shape_of(
            self.alloc,
            &self.plan,
            &self.settings,
            &self.files,
            &self.vertices,
            made,
        )?;
        if !covers(&shape, assignment) {
            return Err(GraphError::NotCover);
        }
        let inputs = made.inputs.as_slice();
        let lists = producers_of(
            self.alloc,
            &self.vertices,
            &self.numbers,
            inputs,
            assignment,
        )?;
        let subtasks = unwon_subtasks(self.alloc, assignment)?;
        self.numbers.decide(vertex, lists.as_slice())?;
        self.vertices.set_subtasks(vertex as usize, subtasks);
        self.undecided -= nodes;
        Ok(())
    }

    // Whether a vertex is made and undecided, and its inputs are complete.
    fn is_decidable(&self, vertex: u32) -> bool
        ensures { IsTrue result ↔ IsDecidable self.now.given self.now.state vertex }
    {
        match self.vertices.as_slice().get(vertex as usize) {
            Some(made) => {
                self.is_open()
                    && made.subtasks.as_slice().is_empty()
                    && self.vertices.are_filled(made.vertex.inputs.as_slice())
            }
            None => false,
        }
    }

    /// Chains a join after its probe side; this side of it is read whole.
    pub fn widened(&mut self, node: u32, side: Side) -> Result<(), GraphError>
        ensures ok { OnOk result (Takes self.old (Widened node side) self.new) }
        ensures same { OnErr result (self.new ≡ self.old) }
        ensures illegal { IfErr result (λ error. error ≡ Illegal
            → Refuses self.old (Widened node side) self.new) }
        ensures not_cover { IfErr result (λ error. error ≢ NotCover) }
    {
        if !self.may_widen(node, side) {
            return Err(GraphError::Illegal);
        }
        self.widened = wider(self.alloc, &self.widened, Widening { node, side })?;
        Ok(())
    }

    fn may_widen(&self, node: u32, side: Side) -> bool
        ensures { IsTrue result ↔ MayWiden self.now.given self.now.state node side }
    {
        let widened = self.widened.as_slice();
        self.is_open() && can_widen(&self.plan, widened, &self.vertices, node, side)
    }

    /// Whether each node is in a complete vertex. It costs the same for every graph.
    pub fn complete(&self) -> bool
        ensures { IsTrue result ↔ IsDone self.now.given self.now.state }
    {
        self.undecided == 0 && self.numbers.are_won()
    }

    /// For proofs: the plan has no fault, and the state is valid.
    pub fn is_kept(&self)
        ensures faultless { plan_faults self.now.given.nodes ≡ [] }
        ensures valid { IsValid self.now.given self.now.state }
    {
        let _ = &self.plan;
    }

    /// The vertices that are made.
    pub fn vertices(&self) -> &MadeVertices
        ensures { result.now ≡ self.now.state.vertices }
    {
        &self.vertices
    }

    /// The numbers of decided vertices' subtasks, and by numbers who reads from whom.
    pub fn numbers(&self) -> &Numbers
        ensures { IsNumbering self.now.state.vertices result.now }
    {
        &self.numbers
    }

    /// Whether a subtask is decided.
    pub fn has(&self, sub: Sub) -> bool
        ensures { IsTrue result
            ↔ (sub.subtask < length (subtasks_at self.now.state.vertices sub.vertex)) }
    {
        self.vertices.has(sub)
    }

    /// The part of a subtask's winner.
    pub fn winner(&self, sub: Sub) -> Option<PartName>
        ensures { result ≡ winner_name self.now.state.vertices sub }
    {
        self.vertices.winner(sub)
    }

    /// Whether what a subtask reads from has winners. It costs the same for every subtask.
    pub fn is_fed(&self, sub: Sub) -> bool
        requires { sub.subtask < length (subtasks_at self.now.state.vertices sub.vertex) }
        ensures { result ≡ is_fed self.now.state.vertices sub }
    {
        is_fed(&self.vertices, &self.numbers, sub)
    }

    /// Whether a further attempt of a subtask may be deployed in this epoch.
    pub fn may_deploy(&self, sub: Sub, epoch: u32) -> bool
        ensures { IsTrue result ↔ MayDeploy self.now sub epoch }
    {
        self.is_open()
            && epoch == self.epoch
            && epoch > 0
            && is_unfinished(&self.vertices, sub)
            && self.is_fed(sub)
    }

    /// The names of the winners' parts that a subtask reads: for each input but files, in order,
    /// those of the producers that its rects touch.
    pub fn inputs_of(&self, sub: Sub) -> Result<Names, NoMemory>
        requires decided { sub.subtask
            < length (subtasks_at self.now.state.vertices sub.vertex) }
        requires fed { IsTrue (is_fed self.now.state.vertices sub) }
        ensures { IfOk result (λ names. AllZip (IsNamed self.now.state.vertices)
            (read_edges self.now.state.vertices sub) names) }
    {
        parts_read(self.alloc, &self.vertices, &self.numbers, sub)
    }

    /// Notes a trouble.
    pub fn troubled(&mut self, cause: &Cause) -> Result<(), GraphError>
        ensures ok { OnOk result (Takes self.old (Trouble cause.now) self.new) }
        ensures err { IfErr result (λ error.
            (error ≡ Illegal) × Refuses self.old (Trouble cause.now) self.new) }
    {
        if !self.is_open() || !self.has_cause(cause) {
            return Err(GraphError::Illegal);
        }
        self.troubles += 1;
        Ok(())
    }

    fn has_cause(&self, cause: &Cause) -> bool
        ensures { IsTrue result ↔ HasCause self.now.state cause.now }
    {
        match cause {
            Cause::Gate { name, .. } => is_unfinished(&self.vertices, Sub::of(*name)),
            Cause::Lost { name } => self.vertices.is_present(*name),
        }
    }

    /// Takes an attempt that ran to its end, if it is the first of its subtask and read the present
    /// winners' parts. `Double` names the winner that stands, `Stale` the first input that is no
    /// winner's part any more. It costs as much as the subtask has inputs and readers.
    pub fn finished(
        &mut self,
        name: PartName,
        inputs: &Names,
        sizes: &EdgeSizes,
    ) -> Result<Verdict, GraphError>
        ensures win { IfOk result (λ verdict. verdict ≡ Won
            → Takes self.old (Done name inputs.now sizes.now) self.new) }
        ensures double { (winner : PartName) → IfOk result (λ verdict. verdict ≡ Double winner
            → (winner_name self.old.state.vertices (sub_of name) ≡ Some winner)
            × (self.new ≡ self.old)) }
        ensures stale { (input : PartName) → IfOk result (λ verdict. verdict ≡ Stale input
            → (winner_name self.old.state.vertices (sub_of name) ≡ None)
            × IsFirstStale self.old.state.vertices inputs.now input × (self.new ≡ self.old)) }
        ensures same { OnErr result (self.new ≡ self.old) }
        ensures illegal { IfErr result (λ error. error ≡ Illegal
            → (winner_name self.old.state.vertices (sub_of name) ≡ None)
            × All (IsPresent self.old.state.vertices) inputs.now
            × Refuses self.old (Done name inputs.now sizes.now) self.new) }
        ensures not_cover { IfErr result (λ error. error ≢ NotCover) }
    {
        let sub = Sub::of(name);
        if let Some(winner) = self.vertices.winner(sub) {
            return Ok(Verdict::Double(winner));
        }
        if let Some(input) = self.vertices.first_stale(inputs.as_slice()) {
            return Ok(Verdict::Stale(input));
        }
        if !self.may_win(name, inputs, sizes) {
            return Err(GraphError::Illegal);
        }
        let win = Win {
            name,
            inputs: copied_names(self.alloc, inputs)?,
            sizes: copied_sizes(self.alloc, sizes)?,
        };
        push_name(&mut self.dones, name)?;
        let number = self.numbers.number(sub);
        self.numbers.finish(number);
        self.vertices.set_winner(sub, Some(win));
        Ok(Verdict::Win)
    }

    /// Takes the winners of the subtasks that run again where these parts are gone. It costs what
    /// `closure` does.
    pub fn reset(&mut self, gone: &Names, subtasks: &Subs) -> Result<(), GraphError>
        ensures ok { OnOk result (Takes self.old (Reset gone.now subtasks.now) self.new) }
        ensures same { OnErr result (self.new ≡ self.old) }
        ensures illegal { IfErr result (λ error. error ≡ Illegal
            → Refuses self.old (Reset gone.now subtasks.now) self.new) }
        ensures not_cover { IfErr result (λ error. error ≢ NotCover) }
    {
        let subs = subtasks.as_slice();
        if !self.is_open() || subs.is_empty() || !self.is_closure(gone, subs)? {
            return Err(GraphError::Illegal);
        }
        reopen_all(&mut self.vertices, &mut self.numbers, subs);
        Ok(())
    }

    /// The subtasks that run again where these parts are gone, in ascending order. It costs a look at
    /// each part, as much as those that are gone or run again have readers and producers, and a sort
    /// of those that run again. No other subtask is looked at.
    pub fn closure(&self, alloc: Global, gone: &Names) -> Result<Subs, NoMemory>
        ensures { IfOk result (λ set. IsClosure self.now.state.vertices gone.now set) }
    {
        let numbers = &self.numbers;
        closure_of(
            alloc,
            &self.vertices,
            numbers.places(),
            numbers.subs(),
            numbers.tasks(),
            gone.as_slice(),
        )
    }

    fn is_closure(&self, gone: &Names, subs: &[Sub]) -> Result<bool, NoMemory>
        ensures { IfOk result (λ is. IsTrue is
            ↔ IsClosure self.now.state.vertices gone.now subs.now) }
    {
        let numbers = &self.numbers;
        is_closure(
            self.alloc,
            &self.vertices,
            numbers.places(),
            numbers.subs(),
            numbers.tasks(),
            gone.as_slice(),
            subs,
        )
    }

    // Whether the attempt may win: it is of the last epoch and of an unfinished subtask, and read
    // the present winners' parts.
    fn may_win(&self, name: PartName, inputs: &Names, sizes: &EdgeSizes) -> bool
        ensures { IsTrue result
            ↔ MayWin self.now.given self.now.state name inputs.now sizes.now }
    {
        let sub = Sub::of(name);
        self.is_open()
            && name.epoch == self.epoch
            && self.epoch > 0
            && is_unfinished(&self.vertices, sub)
            && reads_parts(&self.vertices, &self.numbers, sub, inputs.as_slice())
            && self
                .vertices
                .has_form(name.vertex as usize, sizes.as_slice())
    }
}

// Whether a subtask is decided and has no winner.
fn is_unfinished(vertices: &MadeVertices, sub: Sub) -> bool
    ensures { IsTrue result ↔ IsUnfinished vertices.now sub }
{
    if !vertices.has(sub) {
        return false;
    }
    match vertices.winner(sub) {
        Some(_) => false,
        None => true,
    }
}

// With one widening more.
fn wider(alloc: Global, widened: &Widenings, more: Widening) -> Result<Widenings, NoMemory>
    ensures { IfOk result (λ all. all ≡ widened.now ++ more ∷ []) }
{
    let mut items = Vec::from_slice(alloc, widened.as_slice())?;
    items.push(more)?;
    Ok(Widenings::from_vec(items))
}

fn push_name(names: &mut Vec<PartName>, name: PartName) -> Result<(), NoMemory>
    ensures ok { OnOk result (names.new.items ≡ names.old.items ++ name ∷ []) }
    ensures err { OnErr result (names.new.items ≡ names.old.items) }
{
    names.push(name)?;
    Ok(())
}
