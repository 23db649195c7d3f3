/// Names a slot: the worker, and the slot of that worker, both numbered from 0.
#[derive(Clone, Copy, Debug, PartialEq, Eq, PartialOrd, Ord)]
pub struct SlotId {
    pub worker: u32,
    pub slot: u32,
}
