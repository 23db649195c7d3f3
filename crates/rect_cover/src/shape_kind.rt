/// What the head of a vertex demands of the cells that a subtask reads; docs/SEMANTICS.md has a row
/// for each.
#[derive(Clone, Copy, Debug, PartialEq, Eq)]
pub enum ShapeKind {
    /// A source, a filter, a projection, a union: row by row.
    RowWise,
    /// An aggregate, a distinct: by keys.
    Keyed,
    /// A left, semi or anti join.
    LeftDriven,
    /// A right join.
    RightDriven,
    /// An inner join.
    Inner,
    /// A full join.
    Full,
}
