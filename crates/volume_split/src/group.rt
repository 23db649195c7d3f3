/// Neighbouring items of a list: those from `start` up to, not including, `end`.
#[derive(Clone, Copy, Debug, PartialEq, Eq)]
pub struct Group {
    pub start: u64,
    pub end: u64,
}
