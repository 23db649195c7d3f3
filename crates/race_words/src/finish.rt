/// How a round ends for a runner that is done.
#[derive(Clone, Copy, Debug, PartialEq, Eq)]
pub enum Finish {
    Won,
    /// The number of the runner that won before.
    Lost(u8),
    /// The lane is in this other round.
    Past(u64),
}
