use crate::WordKind;

/// Why words are refused.
#[derive(Clone, Copy, Debug, PartialEq, Eq)]
pub enum WordError {
    /// The first fault. Words are numbered from 0.
    Fault { at: u64, kind: WordKind },
    NoMemory,
}
