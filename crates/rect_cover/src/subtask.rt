ghost use Rattle.std.specs.Prelude.{◌≡◌};
ghost use Rattle.rect_cover.specs.Cells.{rects_of};

use crate::{Rect, Rects};
use std::marker::Model;

/// What a subtask reads: its rects, by input, the head's inputs first and then the wide ones.
#[derive(Debug, Drop)]
pub struct Subtask {
    inputs: Vec<Rects>,
}

impl Model for Subtask {
    ghost use Rattle.std.specs.Prelude.{List};
    ghost use Rattle.rect_cover.specs.declared.rect.Rect.{Rect};

    ghost Value = { List (List Rect) };

    ghost view = { λ list. list.inputs.items };
}

impl Subtask {
    pub fn from_vec(inputs: Vec<Rects>) -> Self
        ensures { result ≡ inputs.items }
    {
        Subtask { inputs }
    }

    pub fn into_vec(self) -> Vec<Rects>
        ensures { result.items ≡ self }
    {
        self.inputs
    }

    pub fn as_slice(&self) -> &[Rects]
        ensures { result.now ≡ self.now }
    {
        self.inputs.as_slice()
    }

    /// The rects of the input; none where the subtask has no such input.
    pub fn rects(&self, input: usize) -> &[Rect]
        ensures { result.now ≡ rects_of self.now input }
    {
        match self.inputs.as_slice().get(input) {
            Some(rects) => rects.as_slice(),
            None => &[],
        }
    }
}
