ghost use Rattle.std.specs.Prelude.{◌≡◌, ◌<◌, ◌^◌, length, replicate, set, IfOk, OnOk};
ghost use Rattle.number_set.specs.Members.{is_marked};

use row_core::NoMemory;
use std::alloc::Global;
use std::marker::Model;

/// Marks, by number.
#[derive(Debug, Drop)]
pub struct Marks {
    items: Vec<bool>,
}

impl Model for Marks {
    ghost use Rattle.std.specs.Prelude.{List, Bool};

    ghost Value = { List Bool };

    ghost view = { λ marks. marks.items.items };
}

impl Marks {
    /// So many marks, each of them set or none.
    pub fn new(alloc: Global, count: usize, mark: bool) -> Result<Self, NoMemory>
        ensures marks { IfOk result (λ marks. marks ≡ replicate count mark) }
        ensures few { OnOk result (count < 2 ^ 63) }
    {
        Ok(Marks {
            items: vec![in alloc; mark; count]?,
        })
    }

    /// Whether the mark is set; false past the last.
    pub fn at(&self, place: usize) -> bool
        ensures { result ≡ is_marked self.now place }
    {
        match self.items.get(place) {
            Some(mark) => *mark,
            None => false,
        }
    }

    pub fn set(&mut self, place: usize, mark: bool)
        requires { place < length self.old }
        ensures { self.new ≡ set self.old place mark }
    {
        self.items[place] = mark;
    }
}
