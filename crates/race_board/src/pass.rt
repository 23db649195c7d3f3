ghost use Rattle.std.specs.Prelude.{◌≡◌};

use estate::PartName;
use std::sync::ledger::{Ledger, Share};

/// A worker's token. It counts the worker's calls of the board and what they took, and keeps the
/// attempt of which the worker is still to tell.
#[derive(Drop)]
pub struct Pass<L: Ledger, M: Ledger> {
    pub(crate) worker: u32,
    pub(crate) calls: Share<L>,
    pub(crate) takings: Share<M>,
    pub(crate) halted: bool,
    pub(crate) owed: Option<PartName>,
    ghost one_of_calls: { calls.parts ≡ 1 },
    ghost one_of_takings: { takings.parts ≡ 1 },
}

impl<L: Ledger, M: Ledger> Pass<L, M> {
    /// The worker's number.
    pub fn worker(&self) -> u32
        ensures { result ≡ self.now.worker }
    {
        self.worker
    }
}
