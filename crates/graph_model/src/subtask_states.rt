ghost use Rattle.std.specs.Prelude.{◌≡◌, ◌<◌, ◌^◌, ◌+◌, [], ◌∷◌, ◌++◌, length, set, get_or, option_map, nat_lt, ◌&&◌, is_some};
ghost use Rattle.graph_model.specs.States.{no_subtask, are_won, won_at};

use crate::{SubtaskState, Win};
use estate::PartName;
use std::marker::Model;

/// The subtasks of a vertex, by number.
#[derive(Debug, Drop)]
pub struct SubtaskStates {
    items: Vec<SubtaskState>,
}

impl Model for SubtaskStates {
    ghost use Rattle.std.specs.Prelude.{List, length, ◌<◌, ◌^◌};
    ghost use Rattle.graph_model.specs.declared.subtask_state.SubtaskState.{SubtaskState};

    ghost Value = { List SubtaskState };

    ghost view = { λ list. list.items.items };

    ghost invariant = { λ list. length list.items.items < 2 ^ 32 };
}

impl SubtaskStates {
    pub fn from_vec(items: Vec<SubtaskState>) -> Self
        requires { length items.items < 2 ^ 32 }
        ensures { result ≡ items.items }
    {
        SubtaskStates { items }
    }

    pub fn as_slice(&self) -> &[SubtaskState]
        ensures same { result.now ≡ self.now }
        ensures few { length result.now < 2 ^ 32 }
    {
        self.items.as_slice()
    }

    /// Whether there are subtasks, and each has a winner.
    pub fn are_won(&self) -> bool
        ensures { result ≡ (nat_lt 0 (length self.now) && are_won self.now) }
    {
        !self.items.is_empty() && self.is_each_won()
    }

    fn is_each_won(&self) -> bool
        ensures { result ≡ are_won self.now }
    {
        self.items.iter().all(|subtask| subtask.winner.is_some())
    }

    /// The part of a subtask's winner.
    pub fn winner(&self, subtask: usize) -> Option<PartName>
        ensures { result
            ≡ option_map (λ win. win.name) (get_or self.now subtask no_subtask).winner }
    {
        match self.items.get(subtask) {
            Some(state) => match &state.winner {
                Some(win) => Some(win.name),
                None => None,
            },
            None => None,
        }
    }

    /// Gives a subtask this winner, or none.
    pub fn set_winner(&mut self, subtask: usize, winner: Option<Win>)
        requires { subtask < length self.old }
        ensures { self.new ≡ won_at self.old subtask winner }
    {
        self.items[subtask].winner = winner;
    }
}
