ghost use Rattle.std.specs.Prelude.{◌≡◌, ◌+◌, ◌<◌, ◌↔◌, [], ◌∷◌, ◌++◌, false, not, Some, None, IfOk, IfErr, IfSome, IfNone, OnOk, OnErr, IsNone, IsTrue, IsFalse, is_ok, length, vec_len, cond};
ghost use Rattle.std.specs.Arc.{arc_value};
ghost use Rattle.board_log.specs.Names.{offer_of, is_offer, is_of};
ghost use Rattle.board_log.specs.Runs.{opened, may_claim, has, BoardRun, takings_of};
ghost use Rattle.board_log.specs.Logs.{state_of, Enters, Stays};
ghost use Rattle.race_board.specs.Reports.{name_by, kind_of};
ghost use Rattle.race_board.specs.Claims.{claimed_as};
ghost use Rattle.race_board.specs.Tokens.{DeskCounts, DeskStops, PassStays, PassClaims, PassReports};

use crate::posted::Posted;
use crate::{BoardState, Claim, Desk, Pass, Race, Report, Reports};
use board_log::{Entry, Found, History, Log, Offer};
use estate::{GateFault, PartName};
use row_core::NoMemory;
use std::alloc::Global;
use std::mem;
use std::sync::Arc;
use std::sync::ledger::{Book, Ledger, Share};
use task_body::Task;

impl<F: GateFault + Drop, L: Ledger, M: Ledger> BoardState<F, L, M> {
    /// A new board of so many workers, over two empty books.
    pub fn new(
        alloc: Global,
        workers: u32,
        calls: Book<L>,
        takings: Book<M>,
    ) -> Result<BoardState<F, L, M>, NoMemory>
        requires { (calls.total ≡ 0) × (takings.total ≡ 0) }
        ensures { IfOk result (λ made. state_of made.log ≡ opened workers) }
    {
        Ok(BoardState {
            alloc,
            log: Log::new(alloc, workers)?,
            tasks: Vec::new(alloc),
            reports: Vec::new(alloc),
            calls,
            takings,
        })
    }

    /// Offers the task to the worker. Takes the room of the offer, and of its claim, its report and
    /// its cancel.
    pub fn offer(
        &mut self,
        desk: &mut Desk<L, M>,
        worker: u32,
        task: Arc<Task>,
        race: Race,
    ) -> Result<(), NoMemory>
        ensures entry { OnOk result
            (Enters self.old.log self.new.log (Entry.Offer worker (arc_value task).name)) }
        ensures same { OnErr result (Stays self.old.log self.new.log) }
        ensures counted { DeskCounts desk.old desk.new (cond (is_ok result) 1 0) 0 }
    {
        let BoardState {
            log,
            tasks,
            reports,
            calls,
            ..
        } = self;
        tasks.reserve(1)?;
        reports.reserve(log.outstanding() + 1)?;
        let name = task.name();
        log.offer(Offer { worker, name })?;
        tasks.push_reserved(Posted { task, race });
        calls.add(&mut desk.calls, 1);
        Ok(())
    }

    /// The oldest pending offer to the worker, or the end where the board is stopped. None where
    /// there is neither, and where the worker's number is past the board's.
    pub fn claim(&mut self, pass: &mut Pass<L, M>) -> Option<Claim>
        requires { (pass.old.halted ≡ false) × (pass.old.owed ≡ None) }
        ensures none { IsNone result
            ↔ IsFalse (may_claim (state_of self.old.log) pass.old.worker) }
        ensures same { IfNone result (Stays self.old.log self.new.log) }
        ensures entry { IfSome result (λ claim.
            Enters self.old.log self.new.log (claimed_as pass.old.worker claim)) }
        ensures stays { IfNone result (PassStays pass.old pass.new) }
        ensures claims { IfSome result (PassClaims pass.old pass.new) }
    {
        let BoardState {
            log,
            tasks,
            calls,
            takings,
            ..
        } = self;
        match log.claim(pass.worker)? {
            Found::At(k, offer) => {
                let Posted { task, race } = tasks.remove(k);
                calls.add(&mut pass.calls, 1);
                takings.add(&mut pass.takings, 1);
                pass.owed = Some(offer.name);
                Some(Claim::Task(task, race))
            }
            Found::Stop => {
                calls.add(&mut pass.calls, 1);
                pass.halted = true;
                Some(Claim::Stop)
            }
        }
    }

    /// Takes in what the pass owes. Gives the report back where the worker claimed no such attempt,
    /// or has told of it.
    pub fn report(&mut self, pass: &mut Pass<L, M>, report: Report<F>) -> Result<(), Report<F>>
        requires { pass.old.owed ≡ Some (name_by F.name_of report) }
        ensures refused { is_ok result
            ≡ has (is_offer (offer_of pass.old.worker (name_by F.name_of report)))
            self.old.log.owed.items }
        ensures entry { OnOk result (Enters self.old.log self.new.log
            (Entry.Told pass.old.worker (name_by F.name_of report) (kind_of report))) }
        ensures kept { OnOk result
            (self.new.reports.items ≡ self.old.reports.items ++ report ∷ []) }
        ensures reports { OnOk result (PassReports pass.old pass.new) }
        ensures back { IfErr result (λ back. back ≡ report) }
        ensures same { OnErr result (Stays self.old.log self.new.log) }
        ensures stays { OnErr result (PassStays pass.old pass.new) }
    {
        let offer = Offer {
            worker: pass.worker,
            name: report.name(),
        };
        let kind = report.kind();
        let BoardState {
            log,
            reports,
            calls,
            ..
        } = self;
        if !log.tell(offer, kind) {
            return Err(report);
        }
        reports.push_reserved(report);
        calls.add(&mut pass.calls, 1);
        pass.owed = None;
        Ok(())
    }

    /// Whether a report has come since the last drain. Nothing is entered.
    pub fn has_report(&self) -> bool
        ensures { IsTrue result ↔ (0 < self.now.log.told) }
    {
        0 < self.log.told()
    }

    /// All reports since the last drain, in their order.
    pub fn drain(&mut self, desk: &mut Desk<L, M>) -> Result<Reports<F>, NoMemory>
        ensures entry { OnOk result
            (Enters self.old.log self.new.log (Entry.Drained self.old.log.told)) }
        ensures all { IfOk result (λ reports. reports ≡ self.old.reports.items) }
        ensures none { OnOk result (self.new.reports.items ≡ []) }
        ensures counted { IfOk result (λ reports.
            DeskCounts desk.old desk.new 1 (length reports)) }
        ensures same { OnErr result (Stays self.old.log self.new.log) }
        ensures kept { OnErr result (self.new.reports.items ≡ self.old.reports.items) }
        ensures stays { OnErr result (DeskCounts desk.old desk.new 0 0) }
    {
        let BoardState {
            alloc,
            log,
            reports,
            calls,
            takings,
            ..
        } = self;
        let fresh = Vec::with_capacity(*alloc, log.outstanding())?;
        log.drain()?;
        let drained = mem::replace(reports, fresh);
        calls.add(&mut desk.calls, 1);
        takings.add(&mut desk.takings, drained.len() as u64);
        Ok(Reports::from_vec(drained))
    }

    /// Takes the oldest pending offer of the name out, if there is one, and says whether there was.
    /// None where each offer was cancelled.
    pub fn cancel(&mut self, desk: &mut Desk<L, M>, name: PartName) -> Option<bool>
        ensures none { IsNone result ↔ (self.old.log.cancels ≡ 0) }
        ensures same { IfNone result (Stays self.old.log self.new.log) }
        ensures out { IfSome result (λ out. out ≡ has (is_of name) self.old.log.pending.items) }
        ensures entry { IfSome result (λ out.
            Enters self.old.log self.new.log (Entry.Cancelled name out)) }
        ensures counted { IfSome result (λ out. DeskCounts desk.old desk.new 1 (cond out 1 0)) }
        ensures stays { IfNone result (DeskCounts desk.old desk.new 0 0) }
    {
        let BoardState {
            log,
            tasks,
            calls,
            takings,
            ..
        } = self;
        match log.cancel(name)? {
            Some(k) => {
                tasks.remove(k);
                calls.add(&mut desk.calls, 1);
                takings.add(&mut desk.takings, 1);
                Some(true)
            }
            None => {
                calls.add(&mut desk.calls, 1);
                Some(false)
            }
        }
    }

    /// Stops the board. False where it was stopped before.
    pub fn stop(&mut self, desk: &mut Desk<L, M>) -> bool
        requires { desk.old.stopped ≡ false }
        ensures refused { result ≡ not self.old.log.stopped }
        ensures entry { IsTrue result → Enters self.old.log self.new.log Entry.Stopped }
        ensures stops { IsTrue result → DeskStops desk.old desk.new }
        ensures same { IsFalse result → Stays self.old.log self.new.log }
        ensures stays { IsFalse result → DeskCounts desk.old desk.new 0 0 }
    {
        let BoardState { log, calls, .. } = self;
        if !log.stop() {
            return false;
        }
        calls.add(&mut desk.calls, 1);
        desk.stopped = true;
        true
    }

    /// The history. Its calls and what they took are what the shares count, which are all.
    pub fn into_history(self, mine: &mut Share<L>, got: &mut Share<M>) -> History
        requires { (mine.old.parts ≡ L.parts) × (got.old.parts ≡ M.parts) }
        ensures run { BoardRun (vec_len self.log.halted) result }
        ensures calls { length result ≡ mine.old.amount }
        ensures takings { takings_of result ≡ got.old.amount }
    {
        let BoardState {
            log,
            mut calls,
            mut takings,
            ..
        } = self;
        calls.audit(mine);
        takings.audit(got);
        log.into_history()
    }
}
