/// What a worker told of an attempt: that it ran to its end, was kept out by the gate, lost its
/// race, or wanted memory.
#[derive(Clone, Copy, Debug, PartialEq, Eq)]
pub enum Kind {
    Ran,
    Fault,
    Lost,
    NoMemory,
}
