ghost use Rattle.std.specs.Prelude.{◌≡◌, All, AllPairs, IsTrue, None};
ghost use Rattle.graph_model.specs.Closures.{IsBefore};
ghost use Rattle.graph_model.specs.States.{is_finished, put_winner, without_winners};
ghost use Rattle.event_graph.specs.Numbers.{IsNumbering};

use crate::Numbers;
use graph_model::Sub;
use graph_vertices::MadeVertices;

/// Takes the winners of these subtasks, each of which has one. It costs as much as they have
/// readers.
pub fn reopen_all(vertices: &mut MadeVertices, numbers: &mut Numbers, subs: &[Sub])
    requires numbering { IsNumbering vertices.old numbers.old }
    requires ascending { AllPairs IsBefore subs.now }
    requires finished { All (λ sub. IsTrue (is_finished vertices.old sub)) subs.now }
    ensures winners { vertices.new ≡ without_winners vertices.old subs.now }
    ensures numbering { IsNumbering vertices.new numbers.new }
{
    for place in 0..subs.len() {
        reopen(vertices, numbers, subs[place]);
    }
}

fn reopen(vertices: &mut MadeVertices, numbers: &mut Numbers, sub: Sub)
    requires numbering { IsNumbering vertices.old numbers.old }
    requires finished { IsTrue (is_finished vertices.old sub) }
    ensures winners { vertices.new ≡ put_winner vertices.old sub None }
    ensures numbering { IsNumbering vertices.new numbers.new }
{
    let task = numbers.number(sub);
    numbers.reopen(task);
    vertices.set_winner(sub, None);
}
