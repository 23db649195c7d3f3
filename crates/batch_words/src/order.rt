/// What a user asks for.
#[derive(Clone, Copy, Debug, PartialEq, Eq)]
pub enum Order {
    /// Runs the job with this many workers; with 0 it runs alone.
    Run { workers: u32 },
    /// Runs the generated job of this number.
    Generate { n: u32, workers: u32 },
    Check,
    Plan,
    Reference,
    Events,
}
