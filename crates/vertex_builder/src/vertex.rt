ghost use Rattle.std.specs.Prelude.{◌≡◌};
ghost use Rattle.vertex_builder.specs.Vertices.{head_input_count, head_of};

use crate::{NodeList, VertexInputs, VertexOutputs};

/// A chain of nodes that run in one task, with what comes in at its head and at the build sides of
/// its widened joins, and what goes out behind its last node.
#[derive(Debug, Drop)]
pub struct Vertex {
    pub nodes: NodeList,
    pub inputs: VertexInputs,
    pub outputs: VertexOutputs,
}

impl Vertex {
    /// The first of its nodes.
    pub fn head(&self) -> u32
        ensures { result ≡ head_of self.now }
    {
        match self.nodes.as_slice().first() {
            Some(head) => *head,
            None => 0,
        }
    }

    /// How many of its inputs are its head's; they come first, and the others are build sides.
    pub fn head_input_count(&self) -> usize
        ensures { result ≡ head_input_count self.now }
    {
        let head = self.head();
        self.inputs
            .as_slice()
            .iter()
            .filter(|input| input.into == head)
            .count()
    }
}
