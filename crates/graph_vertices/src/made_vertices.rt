ghost use Rattle.std.specs.Prelude.{◌≡◌, ◌<◌, ◌^◌, ◌≤◌, ℕ, [], ◌∷◌, ◌++◌, length, set, map, Some, IsTrue, ◌↔◌, OnOk, OnErr, IfSome, IfNone, All, count_by};
ghost use Rattle.graph_model.specs.Legal.{HasForm, IsFilled};
ghost use Rattle.graph_model.specs.States.{put_winner, subtasks_at, vertex_at, winner_name, maker, is_complete, is_decided};
ghost use Rattle.graph_vertices.specs.Counts.{is_unwon};
ghost use Rattle.graph_vertices.specs.Makers.{AreMakers};
ghost use Rattle.graph_vertices.specs.Widening.{IsUnmade};
ghost use Rattle.graph_vertices.specs.Winning.{IsFirstStale, IsPresent};

use crate::Makers;
use estate::{PartName, Sizes};
use graph_model::{MadeVertex, Sub, SubtaskState, SubtaskStates, Win};
use row_core::NoMemory;
use std::alloc::Global;
use std::marker::Model;
use vertex_builder::{VertexInput, VertexOutput};

/// The vertices that are made, by number.
#[derive(Debug, Drop)]
pub struct MadeVertices {
    items: Vec<MadeVertex>,
    makers: Makers,
    unwon: Vec<usize>,
}

impl Model for MadeVertices {
    ghost use Rattle.std.specs.Prelude.{List, length, ◌≤◌, ◌^◌};
    ghost use Rattle.graph_model.specs.declared.made_vertex.MadeVertex.{MadeVertex};

    ghost Value = { List MadeVertex };

    ghost view = { λ list. list.items.items };

    ghost use Rattle.graph_vertices.specs.Counts.{AreCounts};
    ghost use Rattle.graph_vertices.specs.Makers.{AreMakers};

    ghost invariant = { λ list. (length list.items.items ≤ 2 ^ 32)
        × AreMakers list.items.items list.makers
        × AreCounts list.items.items list.unwon.items };
}

impl MadeVertices {
    pub fn new(alloc: Global) -> Self
        ensures { result ≡ [] }
    {
        MadeVertices {
            items: Vec::new(alloc),
            makers: Makers::new(alloc),
            unwon: Vec::new(alloc),
        }
    }

    pub fn as_slice(&self) -> &[MadeVertex]
        ensures { result.now ≡ self.now }
    {
        self.items.as_slice()
    }

    pub fn push(&mut self, made: MadeVertex) -> Result<(), NoMemory>
        requires { length self.old < 2 ^ 32 }
        ensures ok { OnOk result (self.new ≡ self.old ++ made ∷ []) }
        ensures err { OnErr result (self.new ≡ self.old) }
    {
        let vertex = self.items.len();
        let unwon = count_unwon(made.subtasks.as_slice());
        self.makers.cover(made.vertex.nodes.as_slice())?;
        self.unwon.reserve(1)?;
        self.items.push(made)?;
        self.unwon.push_reserved(unwon);
        self.makers
            .note(self.items[vertex].vertex.nodes.as_slice(), vertex);
        Ok(())
    }

    /// The part of a subtask's winner.
    pub fn winner(&self, sub: Sub) -> Option<PartName>
        ensures { result ≡ winner_name self.now sub }
    {
        match self.items.get(sub.vertex as usize) {
            Some(made) => made.subtasks.winner(sub.subtask as usize),
            None => None,
        }
    }

    /// Whether a vertex is decided, and has the subtask.
    pub fn has(&self, sub: Sub) -> bool
        ensures { IsTrue result ↔ (sub.subtask < length (subtasks_at self.now sub.vertex)) }
    {
        match self.items.get(sub.vertex as usize) {
            Some(made) => (sub.subtask as usize) < made.subtasks.as_slice().len(),
            None => false,
        }
    }

    /// Whether the part is the present winner of its subtask.
    pub fn is_present(&self, name: PartName) -> bool
        ensures { IsTrue result ↔ IsPresent self.now name }
    {
        match self.winner(Sub::of(name)) {
            Some(winner) => winner == name,
            None => false,
        }
    }

    /// Whether the subtask's winner has this part.
    pub fn is_winner(&self, sub: Sub, name: PartName) -> bool
        ensures { IsTrue result ↔ (winner_name self.now sub ≡ Some name) }
    {
        match self.winner(sub) {
            Some(winner) => winner == name,
            None => false,
        }
    }

    /// The first of the names that is no present winner.
    pub fn first_stale(&self, names: &[PartName]) -> Option<PartName>
        ensures none { IfNone result (All (IsPresent self.now) names.now) }
        ensures some { IfSome result (λ name. IsFirstStale self.now names.now name) }
    {
        for place in 0..names.len() {
            if !self.is_present(names[place]) {
                return Some(names[place]);
            }
        }
        None
    }

    /// Whether the sizes have the form of a vertex's outputs: for each edge as many as it has
    /// cells.
    pub fn has_form(&self, vertex: usize, sizes: &[Sizes]) -> bool
        ensures { IsTrue result ↔ HasForm self.now vertex sizes.now }
    {
        match self.items.get(vertex) {
            Some(made) => have_form(made.vertex.outputs.as_slice(), sizes),
            None => sizes.is_empty(),
        }
    }

    /// The number of the vertex that has the node; the number of vertices where none has.
    pub fn maker(&self, node: u32) -> usize
        ensures { result ≡ maker self.now node }
    {
        match self.makers.get(node as usize) {
            Some(vertex) => vertex,
            None => self.items.len(),
        }
    }

    /// The number of the vertex that has a node, by nodes.
    pub fn makers(&self) -> &[Option<usize>]
        ensures { AreMakers self.now result.now }
    {
        self.makers.as_slice()
    }

    /// Whether no vertex has the node.
    pub fn lacks(&self, node: u32) -> bool
        ensures { IsTrue result ↔ IsUnmade self.now node }
    {
        self.items.len() <= self.maker(node)
    }

    /// How many subtasks a vertex has: none until it is decided, and none past the last vertex.
    pub fn parallelism(&self, vertex: usize) -> u32
        ensures count { result ≡ length (subtasks_at self.now vertex) }
        ensures number { 0 < result → vertex < 2 ^ 32 }
    {
        match self.items.get(vertex) {
            Some(made) => made.subtasks.as_slice().len() as u32,
            None => 0,
        }
    }

    /// Whether a vertex is decided and each of its subtasks has a winner; false past the last one.
    /// It costs the same for every vertex.
    pub fn is_complete_at(&self, vertex: usize) -> bool
        ensures { result ≡ is_complete (vertex_at self.now vertex) }
    {
        match self.items.get(vertex) {
            Some(made) => !made.subtasks.as_slice().is_empty() && self.unwon[vertex] == 0,
            None => false,
        }
    }

    /// Whether the vertices that these inputs come from are complete.
    pub fn are_filled(&self, inputs: &[VertexInput]) -> bool
        ensures { IsTrue result ↔ All (IsFilled self.now) inputs.now }
    {
        for place in 0..inputs.len() {
            if !self.is_filled(&inputs[place]) {
                return false;
            }
        }
        true
    }

    fn is_filled(&self, input: &VertexInput) -> bool
        ensures { IsTrue result ↔ IsFilled self.now input.now }
    {
        match input.from {
            Some(node) => self.is_complete_at(self.maker(node)),
            None => true,
        }
    }

    /// Gives a subtask this winner, or none.
    pub fn set_winner(&mut self, sub: Sub, winner: Option<Win>)
        requires vertex { sub.vertex < length self.old }
        requires subtask { sub.subtask < length (subtasks_at self.old sub.vertex) }
        ensures { self.new ≡ put_winner self.old sub winner }
    {
        let vertex = sub.vertex as usize;
        let subtask = sub.subtask as usize;
        let subtasks = self.items[vertex].subtasks.as_slice();
        let before = usize::from(subtasks[subtask].winner.is_none());
        let after = usize::from(winner.is_none());
        self.items[vertex].subtasks.set_winner(subtask, winner);
        self.unwon[vertex] = self.unwon[vertex] + after - before;
    }

    /// Decides a vertex.
    pub fn set_subtasks(&mut self, vertex: usize, subtasks: SubtaskStates)
        requires { vertex < length self.old }
        ensures { self.new ≡ set self.old vertex
            (record (vertex_at self.old vertex) { subtasks = subtasks }) }
    {
        self.unwon[vertex] = count_unwon(subtasks.as_slice());
        self.items[vertex].subtasks = subtasks;
    }
}

// How many of the subtasks have no winner.
fn count_unwon(subtasks: &[SubtaskState]) -> usize
    ensures { result ≡ count_by is_unwon subtasks.now }
{
    subtasks
        .iter()
        .filter(|subtask| subtask.winner.is_none())
        .count()
}

/// Whether each of so many nodes is in a decided vertex.
pub fn are_decided(nodes: usize, vertices: &MadeVertices) -> bool
    requires { nodes < 2 ^ 32 }
    ensures { IsTrue result ↔ ((node : ℕ) → node < nodes
        → IsTrue (is_decided (vertex_at vertices.now (maker vertices.now node)))) }
{
    for node in 0..nodes {
        if vertices.parallelism(vertices.maker(node as u32)) == 0 {
            return false;
        }
    }
    true
}

fn have_form(outputs: &[VertexOutput], sizes: &[Sizes]) -> bool
    ensures { IsTrue result ↔ (map length sizes.now ≡ map (λ output. output.cells) outputs.now) }
{
    if sizes.len() != outputs.len() {
        return false;
    }
    for place in 0..sizes.len() {
        if sizes[place].as_slice().len() != outputs[place].cells as usize {
            return false;
        }
    }
    true
}
