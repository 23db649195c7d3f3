/// A number of a group.
#[derive(Clone, Copy, Debug, PartialEq, Eq)]
pub struct Pair {
    pub group: usize,
    pub number: usize,
}
