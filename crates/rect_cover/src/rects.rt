ghost use Rattle.std.specs.Prelude.{◌≡◌};

use crate::Rect;
use std::marker::Model;

/// The rects that a subtask reads of one input.
#[derive(Debug, Drop)]
pub struct Rects {
    rects: Vec<Rect>,
}

impl Model for Rects {
    ghost use Rattle.std.specs.Prelude.{List};
    ghost use Rattle.rect_cover.specs.declared.rect.Rect.{Rect};

    ghost Value = { List Rect };

    ghost view = { λ list. list.rects.items };
}

impl Rects {
    pub fn from_vec(rects: Vec<Rect>) -> Self
        ensures { result ≡ rects.items }
    {
        Rects { rects }
    }

    pub fn into_vec(self) -> Vec<Rect>
        ensures { result.items ≡ self }
    {
        self.rects
    }

    pub fn as_slice(&self) -> &[Rect]
        ensures { result.now ≡ self.now }
    {
        self.rects.as_slice()
    }
}
