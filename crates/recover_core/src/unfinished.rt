ghost use Rattle.std.specs.Prelude.{◌≡◌, ◌<◌, ◌^◌, length, MatchOption, IsTrue, IfSome, IfNone, ℕ, None};
ghost use Rattle.recover_core.specs.Unfinished.{AllWon, IsFirstUnfinished, IsFirstUnwon};

use graph_model::{Sub, SubtaskState};
use graph_vertices::MadeVertices;

/// The first decided subtask without a winner, by vertex and then by number.
pub fn first_unfinished(vertices: &MadeVertices) -> Option<Sub>
    ensures { IsFirstUnfinished vertices.now result }
{
    let made = vertices.as_slice();
    for vertex in 0..made.len() {
        // A vertex that has subtasks is numbered by a word.
        let _count = vertices.parallelism(vertex);
        if let Some(subtask) = first_unwon(made[vertex].subtasks.as_slice()) {
            return Some(Sub {
                vertex: vertex as u32,
                subtask: subtask as u32,
            });
        }
    }
    None
}

// The first of a vertex's subtasks that has no winner.
fn first_unwon(subtasks: &[SubtaskState]) -> Option<usize>
    ensures { MatchOption result (AllWon subtasks.now (length subtasks.now))
        (λ k. IsFirstUnwon subtasks.now k) }
{
    for k in 0..subtasks.len() {
        if subtasks[k].winner.is_none() {
            return Some(k);
        }
    }
    None
}
