use plan_model::{PlanError, Settings};
use std::alloc::Global;
use std::test::Fail;
use test_plans::{Short, ShortNode, accepted, plan};
use vertex_builder::{NodeSet, Widenings, makeable};

// A source, and a sink over which its rows are spread anew.
const SPREAD: &[ShortNode] = &[
    (Short::Source(1), &[], false),
    (Short::Sink("out"), &[0], true),
];

// What can be made where the source's vertex is made and complete.
fn behind_the_source(alloc: Global) -> Result<String, PlanError> {
    let good = accepted(alloc, plan(alloc, SPREAD)?)?;
    let complete = NodeSet::from_vec([0].to_vec(alloc)?);
    let widened = Widenings::from_vec(Vec::new(alloc));
    let settings = Settings::defaults();
    let vertices = makeable(alloc, &good, &complete, &complete, &widened, &settings)?;
    Ok(format!(in alloc; "{vertices:?}")?)
}

#[test]
fn vertices_of_a_plan(rt: HostRuntime) -> Result<(), Fail> {
    let text = behind_the_source(rt.alloc())?;
    assert_eq!(rt;
        text.as_str(),
        "Vertices { items: [Vertex { nodes: NodeList { items: [1] }, \
        inputs: VertexInputs { items: [VertexInput { from: Some(0), into: 1, place: 0, ship: Rebalance }] }, \
        outputs: VertexOutputs { items: [VertexOutput { into: None, place: 0, ship: Forward, cells: 1 }] } }] }"
    );
    Ok(())
}
