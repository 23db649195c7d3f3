use crate::log_event::LogEvent;

/// What happened to a log, and the moment from which on it stands.
#[derive(Debug, Drop)]
pub struct LogChange {
    pub since: u64,
    pub event: LogEvent,
}
