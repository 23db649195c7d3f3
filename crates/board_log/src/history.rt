ghost use Rattle.std.specs.Prelude.{◌≡◌};

use crate::Entry;
use std::marker::Model;

/// The calls of a board, in their order.
#[derive(Debug, Drop)]
pub struct History {
    items: Vec<Entry>,
}

impl Model for History {
    ghost use Rattle.std.specs.Prelude.{List};
    ghost use Rattle.board_log.specs.declared.entry.Entry.{Entry};

    ghost Value = { List Entry };

    ghost view = { λ list. list.items.items };
}

impl History {
    pub fn from_vec(items: Vec<Entry>) -> Self
        ensures { result ≡ items.items }
    {
        History { items }
    }

    pub fn into_vec(self) -> Vec<Entry>
        ensures { result.items ≡ self }
    {
        self.items
    }

    pub fn as_slice(&self) -> &[Entry]
        ensures { result.now ≡ self.now }
    {
        self.items.as_slice()
    }
}
