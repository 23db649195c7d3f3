use estate::{EdgeSizes, Names, PartName};

/// The part that won for a subtask, the parts that its attempt read, and the lengths of its cells.
#[derive(Debug, Drop)]
pub struct Win {
    pub name: PartName,
    pub inputs: Names,
    pub sizes: EdgeSizes,
}
