ghost use Rattle.std.specs.Prelude.{◌≡◌};

use crate::VertexOutput;
use std::marker::Model;

/// The outputs of a vertex.
#[derive(Debug, Drop)]
pub struct VertexOutputs {
    items: Vec<VertexOutput>,
}

impl Model for VertexOutputs {
    ghost use Rattle.std.specs.Prelude.{List};
    ghost use Rattle.vertex_builder.specs.declared.vertex_output.VertexOutput.{VertexOutput};

    ghost Value = { List VertexOutput };

    ghost view = { λ list. list.items.items };
}

impl VertexOutputs {
    pub fn from_vec(items: Vec<VertexOutput>) -> Self
        ensures { result ≡ items.items }
    {
        VertexOutputs { items }
    }

    pub fn into_vec(self) -> Vec<VertexOutput>
        ensures { result.items ≡ self }
    {
        self.items
    }

    pub fn as_slice(&self) -> &[VertexOutput]
        ensures { result.now ≡ self.now }
    {
        self.items.as_slice()
    }
}
