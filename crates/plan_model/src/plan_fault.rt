use crate::PlanKind;

/// The first fault of a plan, and the node that has it; NoSink has none.
#[derive(Clone, Copy, Debug, PartialEq, Eq)]
pub struct PlanFault {
    pub node: Option<u32>,
    pub kind: PlanKind,
}
