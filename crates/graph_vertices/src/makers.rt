ghost use Rattle.std.specs.Prelude.{◌≡◌, ◌<◌, ◌≤◌, ℕ, [], All, None, get_or, length, nat_eq, OnOk};
ghost use Rattle.vertex_builder.specs.Chains.{is_among};
ghost use Rattle.graph_vertices.specs.Makers.{noted};

use row_core::NoMemory;
use std::alloc::Global;
use std::marker::Model;

/// The number of the vertex that has a node, by nodes.
#[derive(Debug, Drop)]
pub struct Makers {
    items: Vec<Option<usize>>,
}

impl Model for Makers {
    ghost use Rattle.std.specs.Prelude.{List, Option, ℕ};

    ghost Value = { List (Option ℕ) };

    ghost view = { λ makers. makers.items.items };
}

impl Makers {
    pub fn new(alloc: Global) -> Self
        ensures { result ≡ [] }
    {
        Makers {
            items: Vec::new(alloc),
        }
    }

    /// The vertex of a node.
    pub fn get(&self, node: usize) -> Option<usize>
        ensures { result ≡ get_or self.now node None }
    {
        match self.items.get(node) {
            Some(maker) => *maker,
            None => None,
        }
    }

    pub fn as_slice(&self) -> &[Option<usize>]
        ensures { result.now ≡ self.now }
    {
        self.items.as_slice()
    }

    /// Makes room for these nodes.
    pub fn cover(&mut self, nodes: &[u32]) -> Result<(), NoMemory>
        ensures same { (n : ℕ) → get_or self.new n None ≡ get_or self.old n None }
        ensures ok { OnOk result (All (λ node. node < length self.new) nodes.now) }
    {
        cover_all(&mut self.items, nodes)
    }

    /// Notes the vertex of these nodes, for those that have none yet.
    pub fn note(&mut self, nodes: &[u32], vertex: usize)
        requires { All (λ node. node < length self.old) nodes.now }
        ensures { (n : ℕ) → get_or self.new n None
            ≡ noted (get_or self.old n None) (is_among nodes.now n) vertex }
    {
        note_all(&mut self.items, nodes, vertex);
    }
}

fn cover_all(makers: &mut Vec<Option<usize>>, nodes: &[u32]) -> Result<(), NoMemory>
    ensures same { (n : ℕ) → get_or makers.new.items n None ≡ get_or makers.old.items n None }
    ensures ok { OnOk result (All (λ node. node < length makers.new.items) nodes.now) }
{
    for place in 0..nodes.len() {
        cover_node(makers, nodes[place] as usize)?;
    }
    Ok(())
}

fn cover_node(makers: &mut Vec<Option<usize>>, node: usize) -> Result<(), NoMemory>
    ensures same { (n : ℕ) → get_or makers.new.items n None ≡ get_or makers.old.items n None }
    ensures long { length makers.old.items ≤ length makers.new.items }
    ensures ok { OnOk result (node < length makers.new.items) }
{
    while makers.len() <= node {
        makers.push(None)?;
    }
    Ok(())
}

fn note_all(makers: &mut Vec<Option<usize>>, nodes: &[u32], vertex: usize)
    requires { All (λ node. node < length makers.old.items) nodes.now }
    ensures { (n : ℕ) → get_or makers.new.items n None
        ≡ noted (get_or makers.old.items n None) (is_among nodes.now n) vertex }
{
    for place in 0..nodes.len() {
        note_node(makers, nodes[place] as usize, vertex);
    }
}

fn note_node(makers: &mut Vec<Option<usize>>, node: usize, vertex: usize)
    requires { node < length makers.old.items }
    ensures len { length makers.new.items ≡ length makers.old.items }
    ensures noted { (n : ℕ) → get_or makers.new.items n None
        ≡ noted (get_or makers.old.items n None) (nat_eq n node) vertex }
{
    if makers[node].is_none() {
        makers[node] = Some(vertex);
    }
}
