ghost use Rattle.std.specs.Prelude.{◌≡◌};
ghost use Rattle.graph_model.specs.States.{sub_of};

use estate::PartName;

/// A subtask, by its vertex and its number there.
#[derive(Clone, Copy, Debug, PartialEq, Eq, PartialOrd, Ord)]
pub struct Sub {
    pub vertex: u32,
    pub subtask: u32,
}

impl Sub {
    /// The subtask of a part.
    pub fn of(name: PartName) -> Self
        ensures { result ≡ sub_of name }
    {
        Sub {
            vertex: name.vertex,
            subtask: name.subtask,
        }
    }
}
