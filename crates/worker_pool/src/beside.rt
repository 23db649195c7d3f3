ghost use Rattle.std.specs.Prelude.{◌<◌, length};
ghost use Rattle.std.specs.Thread.{IsSync};
ghost use Rattle.std.specs.Fork.{AcceptsEach};
ghost use Rattle.worker_pool.specs.Lending.{Takes, Did, DidEach};

use std::thread;
use std::thread::Threads;

/// Lends each of the hands to a call of `work` in a thread of its own, and what the master has to
/// one call of `drive` on the caller's thread. Returns when all calls have.
pub fn side_by_side<
    H: Send,
    T,
    E,
    X,
    W: Fn(usize, &mut H) + Sync,
    D: Fn(&mut T, &mut E) -> X,
    R: Threads + Sync,
>(rt: &R, work: &W, drive: &D, hands: &mut [H], lent: &mut T, outside: &mut E) -> X
    requires hands { AcceptsEach W.Fn work.now hands.old }
    requires lent { Takes D.Fn drive.now lent.old outside.old }
    ensures turned { Did D.Fn drive.now lent.old outside.old result lent.new outside.new }
    ensures back { DidEach W.Fn work.now hands.old hands.new }
{
    let (_, answer) = thread::join_mut(
        rt,
        &mut ||
            requires { IsSync R.row × IsSync W.row × AcceptsEach W.Fn work.now hands.now }
            ensures { DidEach W.Fn work.entry.now hands.entry.now hands.exit.now }
        { each(rt, work, hands) },
        &mut || -> X
            requires { Takes D.Fn drive.now lent.now outside.now }
            ensures { Did D.Fn drive.entry.now lent.entry.now outside.entry.now result lent.exit.now outside.exit.now }
        { once(drive, lent, outside) },
    );
    answer
}

#[tactic(auto, unfolding(crate::specs::Lending::DidEach))]
fn each<H: Send, W: Fn(usize, &mut H) + Sync, R: Threads + Sync>(rt: &R, work: &W, hands: &mut [H])
    requires { AcceptsEach W.Fn work.now hands.old }
    ensures { DidEach W.Fn work.now hands.old hands.new }
{
    let threads = hands.len().max(1);
    thread::for_each_mut(rt, hands, threads, work);
}

#[tactic(auto, unfolding(crate::specs::Lending::Did))]
fn once<T, E, X, D: Fn(&mut T, &mut E) -> X>(drive: &D, lent: &mut T, outside: &mut E) -> X
    requires { Takes D.Fn drive.now lent.old outside.old }
    ensures { Did D.Fn drive.now lent.old outside.old result lent.new outside.new }
{
    drive(lent, outside)
}
