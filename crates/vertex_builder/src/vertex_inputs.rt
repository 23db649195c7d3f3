ghost use Rattle.std.specs.Prelude.{◌≡◌};

use crate::VertexInput;
use std::marker::Model;

/// The inputs of a vertex.
#[derive(Debug, Drop)]
pub struct VertexInputs {
    items: Vec<VertexInput>,
}

impl Model for VertexInputs {
    ghost use Rattle.std.specs.Prelude.{List};
    ghost use Rattle.vertex_builder.specs.declared.vertex_input.VertexInput.{VertexInput};

    ghost Value = { List VertexInput };

    ghost view = { λ list. list.items.items };
}

impl VertexInputs {
    pub fn from_vec(items: Vec<VertexInput>) -> Self
        ensures { result ≡ items.items }
    {
        VertexInputs { items }
    }

    pub fn into_vec(self) -> Vec<VertexInput>
        ensures { result.items ≡ self }
    {
        self.items
    }

    pub fn as_slice(&self) -> &[VertexInput]
        ensures { result.now ≡ self.now }
    {
        self.items.as_slice()
    }
}
