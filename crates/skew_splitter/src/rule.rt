/// When a rect and the next one become one.
#[derive(Clone, Copy, Debug)]
pub enum Rule {
    /// They stand in one column.
    OneColumn,
    /// They have the same producers, and their columns lie side by side.
    SideBySide,
}
