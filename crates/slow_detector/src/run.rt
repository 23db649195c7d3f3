/// A subtask with attempts that run.
#[derive(Clone, Copy, Debug, PartialEq, Eq)]
pub struct Run {
    pub subtask: u32,
    /// How many attempts of it run.
    pub running: u32,
    /// When the earliest of these began, in milliseconds of the clock.
    pub since: u64,
}
