//! Graphs of small plans, of which nothing is made.

ghost use Rattle.attempt_names.specs.Attempts.{no_attempts};
ghost use Rattle.std.specs.Bool.{OnTrue};
ghost use Rattle.std.specs.Prelude.{◌≡◌, ◌<◌, ◌^◌, All, IfOk, length};

use estate::Sizes;
use exec_graph::{FileSizes, Graph};
use plan_model::{Setting, Settings};
use row_core::NoMemory;
use std::alloc::Global;
use std::process::Abort;
use std::test::Fail;
use test_plans::{ShortNode, accepted, plan};

/// The graph of a plan over a table of these files, where edges have two cells.
pub fn graph_of(
    rt: &impl Abort,
    alloc: Global,
    nodes: &[ShortNode],
    files: &[u64],
) -> Result<Graph, Fail>
    ensures { IfOk result (λ graph. graph.attempts ≡ no_attempts) }
{
    let accepted = accepted(alloc, plan(alloc, nodes)?)?;
    let mut settings = Settings::defaults();
    assert!(rt; settings.set(Setting::MaxParallelism, 2));
    let files = file_sizes(alloc, files)?;
    assert!(rt; are_few(&files));
    Ok(Graph::new(alloc, accepted, settings, &files)?)
}

fn file_sizes(alloc: Global, files: &[u64]) -> Result<FileSizes, NoMemory> {
    let mut tables = Vec::new(alloc);
    tables.push(Sizes::from_vec(files.to_vec(alloc)?))?;
    Ok(FileSizes::from_vec(tables))
}

// Whether each table has few enough files.
fn are_few(files: &FileSizes) -> bool
    ensures { OnTrue result (All (λ sizes. length sizes < 2 ^ 32) files.now) }
{
    files
        .as_slice()
        .iter()
        .all(|sizes| (sizes.as_slice().len() as u64) < 4_294_967_296)
}
