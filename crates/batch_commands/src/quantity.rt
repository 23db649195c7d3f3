/// What has a limit that more than one call may pass.
#[derive(Clone, Copy, Debug, PartialEq, Eq)]
pub enum Quantity {
    /// The bytes of the log.
    LogBytes,
}
