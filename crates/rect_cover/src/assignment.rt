ghost use Rattle.std.specs.Prelude.{◌≡◌};

use crate::Subtask;
use std::marker::Model;

/// The subtasks of a vertex, by number.
#[derive(Debug, Drop)]
pub struct Assignment {
    subtasks: Vec<Subtask>,
}

impl Model for Assignment {
    ghost use Rattle.std.specs.Prelude.{List};
    ghost use Rattle.rect_cover.specs.declared.rect.Rect.{Rect};

    ghost Value = { List (List (List Rect)) };

    ghost view = { λ list. list.subtasks.items };
}

impl Assignment {
    pub fn from_vec(subtasks: Vec<Subtask>) -> Self
        ensures { result ≡ subtasks.items }
    {
        Assignment { subtasks }
    }

    pub fn into_vec(self) -> Vec<Subtask>
        ensures { result.items ≡ self }
    {
        self.subtasks
    }

    pub fn as_slice(&self) -> &[Subtask]
        ensures { result.now ≡ self.now }
    {
        self.subtasks.as_slice()
    }
}
