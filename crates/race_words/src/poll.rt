/// What a lane shows of a round.
#[derive(Clone, Copy, Debug, PartialEq, Eq)]
pub enum Poll {
    Undecided,
    /// The number of the runner that won.
    Decided(u8),
    /// The lane is in this other round.
    Past(u64),
}
