/// What is wrong with a word. Of several faults of one word, the one that stands first here is
/// told.
#[derive(Clone, Copy, Debug, PartialEq, Eq)]
pub enum WordKind {
    NoCommand,
    UnknownCommand,
    UnknownWord,
    /// Of an option, at the option's place.
    MissingNumber,
    BadNumber,
    Repeated,
    /// The command is one of another call.
    OtherCall,
}
