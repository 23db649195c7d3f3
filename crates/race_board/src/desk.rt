ghost use Rattle.std.specs.Prelude.{◌≡◌};

use std::sync::ledger::{Ledger, Share};

/// The master's token. It counts the master's calls of the board and what they took.
#[derive(Drop)]
pub struct Desk<L: Ledger, M: Ledger> {
    pub(crate) calls: Share<L>,
    pub(crate) takings: Share<M>,
    pub(crate) stopped: bool,
    ghost one_of_calls: { calls.parts ≡ 1 },
    ghost one_of_takings: { takings.parts ≡ 1 },
}

impl<L: Ledger, M: Ledger> Desk<L, M> {
    /// Whether the board was stopped with it.
    pub fn stopped(&self) -> bool
        ensures { result ≡ self.now.stopped }
    {
        self.stopped
    }
}
