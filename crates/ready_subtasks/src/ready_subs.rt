ghost use Rattle.std.specs.Prelude.{◌≡◌, ◌<◌, ◌≤◌, ◌^◌, ◌∷◌, [], List, All, length, map, replicate, set, IfNone, IfOk, IfSome};
ghost use Rattle.graph_model.specs.declared.sub.Sub.{Sub as OneSub};
ghost use Rattle.number_set.specs.Pairs.{group_at};
ghost use Rattle.ready_subtasks.specs.Marks.{marked_subs, put_mark, sub_of_pair};

use graph_model::{Sub, Subs};
use number_set::{NumberSet, Pair, PairSet};
use row_core::NoMemory;
use std::alloc::Global;
use std::marker::Model;

/// The subtasks that are ready for an attempt. Contracts see a mark for each subtask, by vertices.
#[derive(Debug, Drop)]
pub struct ReadySubs {
    pairs: PairSet,
}

impl Model for ReadySubs {
    ghost use Rattle.std.specs.Prelude.{List, Bool};
    ghost use Rattle.ready_subtasks.specs.Marks.{AreSmall};

    ghost Value = { List (List Bool) };

    ghost view = { λ ready. ready.pairs };

    ghost invariant = { λ ready. AreSmall ready.pairs };
}

impl ReadySubs {
    /// No subtask, of so many vertices at most.
    pub fn new(alloc: Global, vertices: usize) -> Result<Self, NoMemory>
        requires { vertices ≤ 2 ^ 32 }
        ensures { IfOk result (λ ready. ready ≡ replicate vertices []) }
    {
        Ok(ReadySubs {
            pairs: PairSet::new(alloc, vertices)?,
        })
    }

    /// A vertex is decided: these of its subtasks are ready. It takes no memory.
    pub fn decide(&mut self, vertex: u32, own: NumberSet)
        requires vertex { vertex < length self.old }
        requires few { length own < 2 ^ 32 }
        ensures { self.new ≡ set self.old vertex own }
    {
        self.pairs.put_group(vertex as usize, own);
    }

    /// Notes whether a subtask is ready. It takes no memory.
    pub fn set(&mut self, sub: Sub, ready: bool)
        requires vertex { sub.vertex < length self.old }
        requires subtask { sub.subtask < length (group_at self.old sub.vertex) }
        ensures { self.new ≡ put_mark self.old sub ready }
    {
        self.pairs
            .set(sub.vertex as usize, sub.subtask as usize, ready);
    }

    /// The first subtask, by vertex and then by number. It takes as many steps as the numbers of
    /// vertices and of subtasks have binary digits.
    pub fn first(&self) -> Option<Sub>
        ensures some { IfSome result (λ sub.
            (rest : List OneSub) × (marked_subs self.now ≡ sub ∷ rest)) }
        ensures none { IfNone result (marked_subs self.now ≡ []) }
    {
        let pair = self.pairs.first()?;
        Some(Sub {
            vertex: pair.group as u32,
            subtask: pair.number as u32,
        })
    }

    /// The subtasks, by vertex and then by number. It costs as much as they are.
    pub fn subs(&self, alloc: Global) -> Result<Subs, NoMemory>
        ensures { IfOk result (λ subs. subs ≡ marked_subs self.now) }
    {
        let pairs = self.pairs.pairs(alloc)?;
        Ok(Subs::from_vec(subs_of_pairs(alloc, pairs.as_slice())?))
    }
}

fn subs_of_pairs(alloc: Global, pairs: &[Pair]) -> Result<Vec<Sub>, NoMemory>
    requires groups { All (λ pair. pair.group < 2 ^ 32) pairs.now }
    requires numbers { All (λ pair. pair.number < 2 ^ 32) pairs.now }
    ensures { IfOk result (λ subs. subs.items ≡ map sub_of_pair pairs.now) }
{
    let mut subs = Vec::with_capacity(alloc, pairs.len())?;
    for place in 0..pairs.len() {
        subs.push(Sub {
            vertex: pairs[place].group as u32,
            subtask: pairs[place].number as u32,
        })?;
    }
    Ok(subs)
}
