use estate::PartName;

/// What went wrong.
#[derive(Clone, Copy, Debug, PartialEq, Eq)]
pub enum Cause {
    /// The gate refused an attempt, with this code.
    Gate { name: PartName, code: u32 },
    /// A winner's part was found lost.
    Lost { name: PartName },
}
