ghost use Rattle.std.specs.Prelude.{◌≡◌};

use crate::Vertex;
use std::marker::Model;

/// Vertices in ascending order of their heads.
#[derive(Debug, Drop)]
pub struct Vertices {
    items: Vec<Vertex>,
}

impl Model for Vertices {
    ghost use Rattle.std.specs.Prelude.{List};
    ghost use Rattle.vertex_builder.specs.declared.vertex.Vertex.{Vertex};

    ghost Value = { List Vertex };

    ghost view = { λ list. list.items.items };
}

impl Vertices {
    pub fn from_vec(items: Vec<Vertex>) -> Self
        ensures { result ≡ items.items }
    {
        Vertices { items }
    }

    pub fn into_vec(self) -> Vec<Vertex>
        ensures { result.items ≡ self }
    {
        self.items
    }

    pub fn as_slice(&self) -> &[Vertex]
        ensures { result.now ≡ self.now }
    {
        self.items.as_slice()
    }
}
