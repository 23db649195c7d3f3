ghost use Rattle.std.specs.Prelude.{◌≡◌, ◌+◌, ◌<◌, ◌↔◌, ℕ, [], length, true, false, not, Some, None, IfOk, IfSome, IfNone, OnOk, OnErr, IsNone, IsTrue, IsFalse, get_or, vec_len};
ghost use Rattle.std.specs.List.{position, remove};
ghost use Rattle.board_log.specs.Names.{offer_of, is_offer, is_for, is_of};
ghost use Rattle.board_log.specs.Runs.{opened, may_claim, has, BoardRun};
ghost use Rattle.board_log.specs.Logs.{state_of, Enters, Stays, Claims};

use crate::searching::{first_for, first_of, first_same};
use crate::{Entry, Found, History, Kind, Log, Offer};
use estate::PartName;
use row_core::NoMemory;
use std::alloc::{AllocError, Global};

impl Log {
    /// A board of this many workers, with room for its stop and for the halt of each.
    pub fn new(alloc: Global, workers: u32) -> Result<Log, NoMemory>
        ensures history { IfOk result (λ log. log.history.items ≡ []) }
        ensures state { IfOk result (λ log. state_of log ≡ opened workers) }
    {
        let halted = vec![in alloc; false; workers as usize]?;
        let to_come = workers as usize + 1;
        Ok(Log {
            history: Vec::with_capacity(alloc, to_come)?,
            pending: Vec::new(alloc),
            owed: Vec::new(alloc),
            told: 0,
            cancels: 0,
            stopped: false,
            halted,
            to_come,
        })
    }

    /// How many offers are made and not yet told of or taken out.
    pub fn outstanding(&self) -> usize
        ensures { result ≡ vec_len self.now.pending + vec_len self.now.owed }
    {
        self.pending.len() + self.owed.len()
    }

    /// How many were told since the last drain.
    pub fn told(&self) -> usize
        ensures { result ≡ self.now.told }
    {
        self.told
    }

    /// Takes the room of the offer, and of its claim, its report and its cancel.
    pub fn offer(&mut self, offer: Offer) -> Result<(), NoMemory>
        ensures ok { OnOk result
            (Enters self.old self.new (Entry.Offer offer.worker offer.name)) }
        ensures err { OnErr result (Stays self.old self.new) }
    {
        let Log {
            history,
            pending,
            owed,
            cancels,
            to_come,
            ..
        } = self;
        let Some(room) = to_come.checked_add(4) else {
            return Err(AllocError);
        };
        pending.reserve(1)?;
        owed.reserve(pending.len() + 1)?;
        history.reserve(room)?;
        pending.push_reserved(offer);
        let Offer { worker, name } = offer;
        history.push_reserved(Entry::Offer { worker, name });
        *cancels += 1;
        *to_come += 3;
        Ok(())
    }

    /// The oldest offer to this worker, or its halt where the board is stopped.
    pub fn claim(&mut self, worker: u32) -> Option<Found>
        ensures none { IsNone result ↔ IsFalse (may_claim (state_of self.old) worker) }
        ensures same { IfNone result (Stays self.old self.new) }
        ensures claims { IfSome result (Claims self.old self.new worker) }
    {
        if worker as usize >= self.halted.len() {
            return None;
        }
        if self.stopped {
            return self.halt(worker);
        }
        let k = first_for(&self.pending, worker)?;
        let offer = self.take(k);
        Some(Found::At(k, offer))
    }

    fn halt(&mut self, worker: u32) -> Option<Found>
        requires inside { worker < vec_len self.old.halted }
        requires stopped { IsTrue self.old.stopped }
        ensures none { result ≡ None → get_or self.old.halted.items worker true ≡ true }
        ensures same { result ≡ None → Stays self.old self.new }
        ensures stop { IfSome result (λ found. (found ≡ Found.Stop)
            × Enters self.old self.new (Entry.Halted worker)
            × (get_or self.old.halted.items worker true ≡ false)) }
    {
        if self.halted[worker as usize] {
            return None;
        }
        let Log {
            history,
            halted,
            to_come,
            ..
        } = self;
        history.push_reserved(Entry::Halted { worker });
        halted[worker as usize] = true;
        *to_come -= 1;
        Some(Found::Stop)
    }

    fn take(&mut self, k: usize) -> Offer
        requires first { (w : ℕ) × (position (is_for w) self.old.pending.items ≡ Some k) }
        requires open { self.old.stopped ≡ false }
        ensures offer { get_or self.old.pending.items k result ≡ result }
        ensures enters { Enters self.old self.new (Entry.Claim result.worker result.name) }
        ensures pending { self.new.pending.items ≡ remove self.old.pending.items k }
        ensures worker { (w : ℕ) → position (is_for w) self.old.pending.items ≡ Some k
            → result.worker ≡ w }
        ensures inside { k < length self.old.pending.items }
    {
        let Log {
            history,
            pending,
            owed,
            to_come,
            ..
        } = self;
        let offer = pending.remove(k);
        owed.push_reserved(offer);
        let Offer { worker, name } = offer;
        history.push_reserved(Entry::Claim { worker, name });
        *to_come -= 1;
        offer
    }

    /// What a worker tells of an attempt that it claimed. False where it claimed no such attempt,
    /// or has told of it.
    pub fn tell(&mut self, offer: Offer, kind: Kind) -> bool
        ensures refused { result ≡ has (is_offer offer) self.old.owed.items }
        ensures told { IsTrue result
            → Enters self.old self.new (Entry.Told offer.worker offer.name kind) }
        ensures same { IsFalse result → Stays self.old self.new }
    {
        let Some(k) = first_same(&self.owed, offer) else {
            return false;
        };
        let Log {
            history,
            owed,
            told,
            to_come,
            ..
        } = self;
        owed.remove(k);
        let Offer { worker, name } = offer;
        history.push_reserved(Entry::Told { worker, name, kind });
        *told += 1;
        *to_come -= 1;
        true
    }

    /// Forgets what was told. Takes the room of its own entry.
    pub fn drain(&mut self) -> Result<(), NoMemory>
        ensures ok { OnOk result (Enters self.old self.new (Entry.Drained self.old.told)) }
        ensures err { OnErr result (Stays self.old self.new) }
    {
        let Log {
            history,
            told,
            to_come,
            ..
        } = self;
        let Some(room) = to_come.checked_add(1) else {
            return Err(AllocError);
        };
        history.reserve(room)?;
        history.push_reserved(Entry::Drained { count: *told });
        *told = 0;
        Ok(())
    }

    /// Takes the oldest offer of the name out, and answers its place, if there is one. None where
    /// each offer was cancelled.
    pub fn cancel(&mut self, name: PartName) -> Option<Option<usize>>
        ensures none { IsNone result ↔ (self.old.cancels ≡ 0) }
        ensures same { IfNone result (Stays self.old self.new) }
        ensures place { IfSome result (λ at. at ≡ position (is_of name) self.old.pending.items) }
        ensures out { IfSome result (λ at. IfSome at (λ k.
            (k < length self.old.pending.items)
            × (self.new.pending.items ≡ remove self.old.pending.items k)
            × Enters self.old self.new (Entry.Cancelled name true))) }
        ensures late { IfSome result (λ at. IfNone at
            ((self.new.pending.items ≡ self.old.pending.items)
            × Enters self.old self.new (Entry.Cancelled name false))) }
    {
        if self.cancels == 0 {
            return None;
        }
        let at = first_of(&self.pending, name);
        match at {
            Some(k) => self.take_out(name, k),
            None => self.miss(name),
        }
        Some(at)
    }

    fn take_out(&mut self, name: PartName, k: usize)
        requires first { position (is_of name) self.old.pending.items ≡ Some k }
        requires some { 0 < self.old.cancels }
        ensures enters { Enters self.old self.new (Entry.Cancelled name true) }
        ensures pending { self.new.pending.items ≡ remove self.old.pending.items k }
    {
        let Log {
            history,
            pending,
            cancels,
            to_come,
            ..
        } = self;
        pending.remove(k);
        history.push_reserved(Entry::Cancelled { name, out: true });
        *cancels -= 1;
        *to_come -= 3;
    }

    fn miss(&mut self, name: PartName)
        requires none { position (is_of name) self.old.pending.items ≡ None }
        requires some { 0 < self.old.cancels }
        ensures enters { Enters self.old self.new (Entry.Cancelled name false) }
        ensures pending { self.new.pending.items ≡ self.old.pending.items }
    {
        let Log {
            history,
            cancels,
            to_come,
            ..
        } = self;
        history.push_reserved(Entry::Cancelled { name, out: false });
        *cancels -= 1;
        *to_come -= 1;
    }

    /// Stops the board. False where it was stopped before.
    pub fn stop(&mut self) -> bool
        ensures refused { result ≡ not self.old.stopped }
        ensures stopped { IsTrue result → Enters self.old self.new Entry.Stopped }
        ensures same { IsFalse result → Stays self.old self.new }
    {
        if self.stopped {
            return false;
        }
        let Log {
            history,
            stopped,
            to_come,
            ..
        } = self;
        history.push_reserved(Entry::Stopped);
        *stopped = true;
        *to_come -= 1;
        true
    }

    /// All that was called.
    pub fn into_history(self) -> History
        ensures same { result ≡ self.history.items }
        ensures run { BoardRun (vec_len self.halted) result }
    {
        let Log { history, .. } = self;
        History::from_vec(history)
    }
}
