/// An edge of a plan: from a node into an input of its consumer.
#[derive(Clone, Copy, Debug)]
pub struct Edge {
    pub from: u32,
    pub into: u32,
    pub place: u32,
}
