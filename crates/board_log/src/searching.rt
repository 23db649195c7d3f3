ghost use Rattle.std.specs.Prelude.{◌≡◌};
ghost use Rattle.std.specs.List.{position};
ghost use Rattle.board_log.specs.Names.{is_name, is_offer, is_for, is_of};

use crate::Offer;
use estate::PartName;

/// The place of the oldest offer to the worker.
pub fn first_for(pending: &[Offer], worker: u32) -> Option<usize>
    ensures { result ≡ position (is_for worker) pending.now }
{
    pending.iter().position(|o| o.worker == worker)
}

/// The place of the oldest offer of the attempt.
pub fn first_of(pending: &[Offer], name: PartName) -> Option<usize>
    ensures { result ≡ position (is_of name) pending.now }
{
    pending.iter().position(|o| is_name(&o.name, &name))
}

/// The place of the oldest offer of this attempt to this worker.
pub fn first_same(owed: &[Offer], offer: Offer) -> Option<usize>
    ensures { result ≡ position (is_offer offer) owed.now }
{
    owed.iter().position(|o| is_offer(&offer, o))
}

fn is_name(a: &PartName, b: &PartName) -> bool
    ensures { result ≡ is_name a.now b.now }
{
    a.vertex == b.vertex && a.subtask == b.subtask && a.epoch == b.epoch && a.attempt == b.attempt
}

fn is_offer(a: &Offer, b: &Offer) -> bool
    ensures { result ≡ is_offer a.now b.now }
{
    a.worker == b.worker && is_name(&a.name, &b.name)
}
