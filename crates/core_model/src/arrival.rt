use estate::PartName;

/// How a deployed attempt came back.
#[derive(Clone, Copy, Debug, PartialEq, Eq)]
pub enum Arrival {
    /// It won for its subtask: its part was put, and it is done.
    Win,
    /// It read this part, which is no winner's any more.
    Stale { input: PartName },
    /// Its subtask has this winner already.
    Double { winner: PartName },
    /// The gate refused it, with this code.
    Fault { code: u32 },
    /// It gave way to the attempt of this number, or came when nothing counts any more.
    Lost { winner: u32 },
    /// It ran out of memory.
    NoMemory,
}
