/// Names what one attempt wrote: the attempt of a vertex's subtask in an epoch. Ordered by these,
/// in this order.
#[derive(Clone, Copy, Debug, PartialEq, Eq, PartialOrd, Ord)]
pub struct PartName {
    pub vertex: u32,
    pub subtask: u32,
    pub epoch: u32,
    pub attempt: u32,
}
