/// What is wrong with a plan, in the order in which the faults of one node are told; those of the whole
/// plan come last. docs/SEMANTICS.md has the rule of each.
#[derive(Clone, Copy, Debug, PartialEq, Eq)]
pub enum PlanKind {
    /// The wrong number of inputs, or an input that is no node before this one, or a sink.
    BadInput,
    /// An aggregate or a join without keys.
    NoKeys,
    /// Rows spread anew where the operator says itself how they are spread.
    BadShip,
    /// A column that the input doesn't have.
    BadColumn,
    /// A union of inputs of different widths.
    BadWidth,
    /// Rows of more than 256 values.
    TooWide,
    /// No node is a sink.
    NoSink,
    /// No node takes the rows of this one, and it is no sink.
    Dangling,
    /// A sink's name that a sink before it has.
    SameSink,
}
