use crate::write::Write;

/// What happened to a log.
#[derive(Debug, Drop)]
pub enum LogEvent {
    Wrote(Write),
    /// All that was written before is on the disk.
    Synced,
}
