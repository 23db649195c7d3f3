use crate::RefusedKind;
use row_core::Bytes;

/// The first fault of a job.
#[derive(Debug, Drop)]
pub struct JobRefusal {
    pub kind: RefusedKind,
    /// The node in which it stands; none outside the nodes.
    pub node: Option<u32>,
    /// The member or the setting at fault, or the quantity that is too large.
    pub name: Option<Bytes>,
}
