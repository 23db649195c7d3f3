ghost use Rattle.std.specs.Prelude.{◌≡◌, ◌<◌, ◌↔◌, [], ◌∷◌, ◌++◌, All, Any, IfOk, OnOk, IsTrue, length, true, false};
ghost use Rattle.graph_model.specs.Closures.{IsAwaited};
ghost use Rattle.graph_model.specs.States.{is_decided, maker, vertex_at};
ghost use Rattle.region_closure.specs.Closing.{AreAwaited, HasAwaited};

use graph_model::Sub;
use graph_vertices::MadeVertices;
use row_core::NoMemory;
use std::alloc::Global;
use vertex_builder::VertexOutput;

/// Of the numbers of lost subtasks those whose vertex ends in a sink, or has a consumer that is in
/// no decided vertex.
pub fn awaited_numbers(
    alloc: Global,
    vertices: &MadeVertices,
    subs: &[Sub],
    lost: &[usize],
) -> Result<Vec<usize>, NoMemory>
    requires { All (λ n. n < length subs.now) lost.now }
    ensures { IfOk result (λ awaited. AreAwaited vertices.now subs.now lost.now awaited.items) }
{
    let mut awaited = Vec::new(alloc);
    for number in lost {
        push_if(&mut awaited, *number, has_awaited(vertices, subs[*number]))?;
    }
    Ok(awaited)
}

fn push_if(numbers: &mut Vec<usize>, number: usize, passes: bool) -> Result<(), NoMemory>
    ensures yes { OnOk result (passes ≡ true
        → numbers.new.items ≡ numbers.old.items ++ number ∷ []) }
    ensures no { passes ≡ false → numbers.new.items ≡ numbers.old.items }
{
    if !passes {
        return Ok(());
    }
    numbers.push(number)?;
    Ok(())
}

fn has_awaited(vertices: &MadeVertices, sub: Sub) -> bool
    ensures { IsTrue result ↔ HasAwaited vertices.now sub }
{
    match vertices.as_slice().get(sub.vertex as usize) {
        Some(made) => any_awaited(vertices, made.vertex.outputs.as_slice()),
        None => false,
    }
}

fn any_awaited(vertices: &MadeVertices, outputs: &[VertexOutput]) -> bool
    ensures { IsTrue result ↔ Any (IsAwaited vertices.now) outputs.now }
{
    outputs.iter().any(|output| is_awaited(vertices, output))
}

fn is_awaited(vertices: &MadeVertices, output: &VertexOutput) -> bool
    ensures { IsTrue result ↔ IsAwaited vertices.now output.now }
{
    match output.into {
        Some(node) => !is_decided(vertices, node),
        None => true,
    }
}

// Whether a node is in a decided vertex.
fn is_decided(vertices: &MadeVertices, node: u32) -> bool
    ensures { result ≡ is_decided (vertex_at vertices.now (maker vertices.now node)) }
{
    vertices.parallelism(vertices.maker(node)) > 0
}
