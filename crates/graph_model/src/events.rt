ghost use Rattle.std.specs.Prelude.{◌≡◌};

use crate::Event;
use std::marker::Model;

/// Events, in order.
#[derive(Debug, Drop)]
pub struct Events {
    items: Vec<Event>,
}

impl Model for Events {
    ghost use Rattle.std.specs.Prelude.{List, ℕ};
    ghost use Rattle.graph_model.specs.declared.event.Event.{Event};

    ghost Value = { List Event };

    ghost view = { λ list. list.items.items };
}

impl Events {
    pub fn from_vec(items: Vec<Event>) -> Self
        ensures { result ≡ items.items }
    {
        Events { items }
    }

    pub fn into_vec(self) -> Vec<Event>
        ensures { result.items ≡ self }
    {
        self.items
    }

    pub fn as_slice(&self) -> &[Event]
        ensures { result.now ≡ self.now }
    {
        self.items.as_slice()
    }
}
