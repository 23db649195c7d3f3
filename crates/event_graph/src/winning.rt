ghost use Rattle.std.specs.Prelude.{◌≡◌, ◌<◌, ◌↔◌, IfOk, IsTrue, All, Some, length, map};
ghost use Rattle.std.specs.List.{AllZip};
ghost use Rattle.graph_model.specs.Indexes.{sub_at};
ghost use Rattle.graph_model.specs.States.{is_finished, winner_name};
ghost use Rattle.graph_vertices.specs.Winning.{IsWonBy};

use estate::{Names, PartName};
use graph_model::Sub;
use graph_vertices::MadeVertices;
use reader_index::Read;
use row_core::NoMemory;
use std::alloc::Global;

/// Whether these are the winners' parts of the producers, in the order of the reads.
pub fn are_winners(
    vertices: &MadeVertices,
    subs: &[Sub],
    reads: &[Read],
    names: &[PartName],
) -> bool
    requires { All (λ read. read.producer < length subs.now) reads.now }
    ensures { IsTrue result ↔ AllZip (IsWonBy vertices.now)
        (map (λ read. sub_at subs.now read.producer) reads.now) names.now }
{
    if reads.len() != names.len() {
        return false;
    }
    for place in 0..reads.len() {
        if !vertices.is_winner(subs[reads[place].producer], names[place]) {
            return false;
        }
    }
    true
}

/// The winners' parts of the producers, in the order of the reads.
pub fn winners_of(
    alloc: Global,
    vertices: &MadeVertices,
    subs: &[Sub],
    reads: &[Read],
) -> Result<Names, NoMemory>
    requires inside { All (λ read. read.producer < length subs.now) reads.now }
    requires won { All (λ read.
        IsTrue (is_finished vertices.now (sub_at subs.now read.producer))) reads.now }
    ensures { IfOk result (λ names. AllZip (IsWonBy vertices.now)
        (map (λ read. sub_at subs.now read.producer) reads.now) names) }
{
    let mut names = Vec::with_capacity(alloc, reads.len())?;
    for place in 0..reads.len() {
        names.push(winner_of(vertices, subs[reads[place].producer]))?;
    }
    Ok(Names::from_vec(names))
}

// The part of a winner that stands.
fn winner_of(vertices: &MadeVertices, sub: Sub) -> PartName
    requires { IsTrue (is_finished vertices.now sub) }
    ensures { winner_name vertices.now sub ≡ Some result }
{
    match vertices.winner(sub) {
        Some(name) => name,
        None => unreachable!(),
    }
}
