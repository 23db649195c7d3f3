use std::collections::LinkedList;

/// What a lane showed a seat: its round, and the runner for which it was decided, if it was.
pub struct Observation {
    pub lane: u32,
    pub round: u64,
    pub winner: Option<u8>,
    /// Whether the seat's own exchange decided it.
    pub won: bool,
}

/// What a seat knows. It exists in contracts alone: no value of it is made.
pub struct View {
    pub is_master: bool,
    /// The round of each lane, where the seat is the master's.
    pub rounds: LinkedList<u64>,
    pub observations: LinkedList<Observation>,
}
