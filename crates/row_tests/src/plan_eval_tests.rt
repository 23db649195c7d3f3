use plan_eval::{Files, TableFiles, TableRows, answer};
use plan_model::{JoinKind, PlanError};
use row_core::{Bytes, NoMemory};
use std::alloc::Global;
use std::test::Fail;
use test_plans::{Short, ShortNode, accepted, plan};

// A table of these files.
fn tables(alloc: Global, files: &[&str]) -> Result<TableRows, NoMemory> {
    let mut contents = Vec::new(alloc);
    for file in files {
        contents.push(Bytes::from_slice(alloc, file.as_bytes())?)?;
    }
    let mut tables = Vec::new(alloc);
    tables.push(TableFiles {
        table: Bytes::from_slice(alloc, b"t")?,
        rows: Files::from_vec(contents),
    })?;
    Ok(TableRows::from_vec(tables))
}

// What the plan commits over a table of these files.
fn committed(alloc: Global, nodes: &[ShortNode], files: &[&str]) -> Result<Bytes, PlanError> {
    let good = accepted(alloc, plan(alloc, nodes)?)?;
    Ok(answer(alloc, &good, &tables(alloc, files)?)?)
}

// Node 0 has five consumers, and stands twice in a union.
const SHARED: &[ShortNode] = &[
    (Short::Source(1), &[], false),
    (Short::Sink("all"), &[0], false),
    (Short::AtLeast(0, 5), &[0], false),
    (Short::Union, &[0, 2, 0], false),
    (Short::Sink("thrice"), &[3], false),
    (Short::Distinct, &[3], false),
    (Short::Join(JoinKind::Left, &[(0, 0)]), &[5, 2], false),
    (Short::Sink("padded"), &[6], false),
];

#[test]
fn a_node_is_taken_by_several(rt: HostRuntime) -> Result<(), Fail> {
    let text = committed(rt.alloc(), SHARED, &["4\n", "", "7"])?;
    let wanted = "sink all\n4\n7\nsink thrice\n4\n4\n7\n7\n7\nsink padded\n4,\n7,7\n";
    assert_eq!(rt; text.as_slice(), wanted.as_bytes());
    Ok(())
}
