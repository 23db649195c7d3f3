/// What is wrong with a job's text; docs/FORMATS.md says exactly where each comes.
#[derive(Clone, Copy, Debug, PartialEq, Eq)]
pub enum JobFaultKind {
    /// The text is no JSON, or no object.
    NotJson,
    /// A member that is not optional is absent.
    MissingMember,
    /// `op` names no operator.
    UnknownOp,
    /// A member is of another JSON kind, or not of its form.
    BadMember,
    /// A number is no integer, or out of its range.
    BadNumber,
    /// What stands for an expression or a test is none.
    BadExpr,
    /// A member that has no meaning.
    UnknownMember,
    /// A quantity that passes its limit, and how much there is.
    TooMany(u64),
}
