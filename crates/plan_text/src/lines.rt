ghost use Rattle.std.specs.Prelude.{◌≡◌, IfOk};
ghost use Rattle.plan_text.specs.Lines.{vertex_line, vertex_lines};

use crate::parts::{inputs_text, nodes_text, outputs_text};
use row_core::{Bytes, NoMemory};
use std::alloc::Global;
use vertex_builder::Vertex;

/// A line for each vertex, numbered from 0.
pub fn vertex_lines(alloc: Global, vertices: &[Vertex]) -> Result<Bytes, NoMemory>
    ensures { IfOk result (λ text. text ≡ vertex_lines 0 vertices.now) }
{
    let mut text = Bytes::new(alloc);
    for (number, vertex) in vertices.iter().enumerate() {
        let line = vertex_line(alloc, number, vertex)?;
        text.extend(line.as_slice())?;
    }
    Ok(text)
}

fn vertex_line(alloc: Global, number: usize, vertex: &Vertex) -> Result<Bytes, NoMemory>
    ensures { IfOk result (λ line. line ≡ vertex_line number vertex.now) }
{
    let digits = number.to_string(alloc)?;
    let nodes = nodes_text(alloc, vertex.nodes.as_slice())?;
    let inputs = inputs_text(alloc, vertex.inputs.as_slice())?;
    let outputs = outputs_text(alloc, vertex.outputs.as_slice())?;
    let mut line = Bytes::from_slice(alloc, b"vertex ")?;
    line.extend(digits.as_bytes())?;
    line.extend(b" nodes=")?;
    line.extend(nodes.as_slice())?;
    line.extend(b" in=")?;
    line.extend(inputs.as_slice())?;
    line.extend(b" out=")?;
    line.extend(outputs.as_slice())?;
    line.push(b'\n')?;
    Ok(line)
}
