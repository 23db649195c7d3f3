ghost use Rattle.std.specs.Prelude.{◌≡◌};
ghost use Rattle.event_graph.specs.declared.graph_error.GraphError.TheVariants.{NoMemory};

/// Why a graph took no event.
#[derive(Clone, Copy, Debug, PartialEq, Eq)]
pub enum GraphError {
    /// The assignment is no cover of the vertex.
    NotCover,
    /// The event is not legal.
    Illegal,
    NoMemory,
}

impl From<row_core::NoMemory> for GraphError {
    ghost from_gives = { λ _ error. error ≡ NoMemory };

    fn from(_: row_core::NoMemory) -> Self {
        GraphError::NoMemory
    }
}
