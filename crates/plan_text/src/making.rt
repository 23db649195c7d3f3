ghost use Rattle.std.specs.Prelude.{◌≡◌, ◌++◌, [], map, All, IfOk, OnOk};
ghost use Rattle.vertex_builder.specs.Vertices.{makeable_heads, head_of, IsVertex};
ghost use Rattle.plan_text.specs.Making.{vertices_made};

use plan_model::{GoodPlan, Settings};
use row_core::NoMemory;
use std::alloc::Global;
use vertex_builder::{NodeSet, Vertex, Widenings, makeable};

/// The vertices of a plan in the order in which they are made, if they complete one at a time in
/// that order. It calls `makeable` once more than there are vertices, at most.
pub fn vertices_in_order(alloc: Global, plan: &GoodPlan) -> Result<Vec<Vertex>, NoMemory>
    ensures { IfOk result (λ vertices. vertices.items ≡ vertices_made plan.now) }
{
    // The settings decide nothing that is shown.
    let settings = Settings::defaults();
    let count = plan.nodes().len();
    let mut complete = Vec::new(alloc);
    let mut vertices = Vec::new(alloc);
    make_more(alloc, plan, &settings, complete.as_slice(), &mut vertices)?;
    for place in 0..count {
        if place >= vertices.len() {
            break;
        }
        complete.extend_from_slice(vertices[place].nodes.as_slice())?;
        make_more(alloc, plan, &settings, complete.as_slice(), &mut vertices)?;
    }
    Ok(vertices)
}

// Makes the vertices that can be made where these are made, and these nodes are in complete ones.
fn make_more(
    alloc: Global,
    plan: &GoodPlan,
    settings: &Settings,
    complete: &[u32],
    vertices: &mut Vec<Vertex>,
) -> Result<(), NoMemory>
    requires { All (IsVertex plan.now [] settings.now.max_parallelism) vertices.old.items }
    ensures heads { OnOk result (map head_of vertices.new.items
        ≡ map head_of vertices.old.items
        ++ makeable_heads plan.now [] (map head_of vertices.old.items) complete.now) }
    ensures vertices { OnOk result
        (All (IsVertex plan.now [] settings.now.max_parallelism) vertices.new.items) }
{
    let made = NodeSet::from_vec(heads_of(alloc, vertices.as_slice())?);
    let complete = NodeSet::from_vec(complete.to_vec(alloc)?);
    let widened = Widenings::from_vec(Vec::new(alloc));
    let more = makeable(alloc, plan, &made, &complete, &widened, settings)?;
    vertices.append(&mut more.into_vec())?;
    Ok(())
}

fn heads_of(alloc: Global, vertices: &[Vertex]) -> Result<Vec<u32>, NoMemory>
    ensures { IfOk result (λ heads. heads.items ≡ map head_of vertices.now) }
{
    let mut heads = Vec::with_capacity(alloc, vertices.len())?;
    for vertex in vertices {
        heads.push(vertex.head())?;
    }
    Ok(heads)
}
