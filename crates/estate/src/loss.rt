use crate::PartName;

/// A part that leaves the shelf at the start of a call, which goes by its number.
#[derive(Clone, Copy, Debug, PartialEq, Eq)]
pub struct Loss {
    pub call: u64,
    pub name: PartName,
}
