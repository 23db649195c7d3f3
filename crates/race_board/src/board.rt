ghost use Rattle.std.specs.Prelude.{◌≡◌, ◌+◌, ℕ, All, IfOk, None, OnErr, Some, cond, false, is_ok, length, sum_by};
ghost use Rattle.std.specs.Arc.{arc_value};
ghost use Rattle.board_log.specs.Runs.{BoardRun, takings_of};
ghost use Rattle.race_board.specs.Reports.{name_by};
ghost use Rattle.race_board.specs.Tokens.{DeskCounts, DeskStops, PassClaims, PassReports, IsNewDesk, IsNewPass};

use crate::{BoardState, Claim, Desk, Pass, Passes, Race, Report, Reports};
use board_log::History;
use estate::{GateFault, PartName};
use row_core::NoMemory;
use std::alloc::Global;
use std::sync::ledger::{Blank, Ledger, Share};
use std::sync::{Arc, Condvar, Mutex, Wait};
use task_body::Task;

/// The board: a lock, on whose value the master offers attempts and each worker claims its own and
/// tells of them. Each call but `new` and `take_out` takes the lock, and so may wait for another.
#[derive(Drop)]
pub struct Board<F, L: Ledger, M: Ledger> {
    state: Mutex<BoardState<F, L, M>>,
    // One for each worker, on which it waits for an offer.
    offered: Vec<Condvar>,
    // On which the master waits for a report.
    told: Condvar,
    // On which a call waits that no other call can help.
    unmet: Condvar,
}

impl<F: GateFault + Drop, L: Ledger, M: Ledger> Board<F, L, M> {
    /// A board of so many workers, the master's token, and one token for each worker, in the order
    /// of their numbers from 0.
    pub fn new(
        alloc: Global,
        workers: u32,
        calls: Blank,
        takings: Blank,
    ) -> Result<(Board<F, L, M>, Desk<L, M>, Passes<L, M>), NoMemory>
        requires calls { (calls.name ≡ L.name) × (calls.parts ≡ L.parts)
            × (calls.parts ≡ workers + 1) }
        requires takings { (takings.name ≡ M.name) × (takings.parts ≡ M.parts)
            × (takings.parts ≡ workers + 1) }
        ensures desk { IfOk result (λ made. IsNewDesk made.1) }
        ensures passes { IfOk result (λ made. length made.2 ≡ workers) }
        ensures fresh { IfOk result (λ made. All IsNewPass made.2) }
    {
        let (calls, mut all) = calls.open::<L>();
        let (takings, mut got) = takings.open::<M>();
        let mut passes = Vec::with_capacity(alloc, workers as usize)?;
        for worker in 0..workers {
            let calls = all.split_off(1, 0);
            let takings = got.split_off(1, 0);
            passes.push(new_pass(worker, calls, takings))?;
        }
        let desk = new_desk(all, got);
        let board = Board {
            state: Mutex::new(BoardState::new(alloc, workers, calls, takings)?),
            offered: bells(alloc, workers)?,
            told: Condvar::new(),
            unmet: Condvar::new(),
        };
        Ok((board, desk, Passes::from_vec(passes)))
    }

    /// Offers a task to a worker, and wakes this worker alone. Takes the room that its claim, its
    /// report and its cancel need.
    pub fn offer<R: Wait>(
        &self,
        rt: &R,
        desk: &mut Desk<L, M>,
        worker: u32,
        task: Arc<Task>,
        race: Race,
    ) -> Result<(), NoMemory>
        ensures counted { DeskCounts desk.old desk.new (cond (is_ok result) 1 0) 0 }
    {
        let offered = self.state.lock(rt).offer(desk, worker, task, race);
        self.bell(worker).notify_one();
        offered
    }

    /// Waits for the oldest pending offer to this worker, or until the board is stopped.
    pub fn claim<R: Wait>(&self, rt: &R, pass: &mut Pass<L, M>) -> Claim
        requires { (pass.old.halted ≡ false) × (pass.old.owed ≡ None) }
        ensures claims { PassClaims pass.old pass.new result }
    {
        let bell = self.bell(pass.worker);
        let mut state = self.state.lock(rt);
        for _ in rt.forever() {
            let state_now = &mut *state;
            if let Some(claim) = state_now.claim(pass) {
                return claim;
            }
            state = bell.wait(rt, state);
        }
        unreachable!()
    }

    /// Tells of the attempt that was claimed with this pass.
    pub fn report<R: Wait>(&self, rt: &R, pass: &mut Pass<L, M>, report: Report<F>)
        requires { pass.old.owed ≡ Some (name_by F.name_of report) }
        ensures reports { PassReports pass.old pass.new }
    {
        self.enter_report(rt, pass, report);
        self.told.notify_one();
    }

    fn enter_report<R: Wait>(&self, rt: &R, pass: &mut Pass<L, M>, report: Report<F>)
        requires { pass.old.owed ≡ Some (name_by F.name_of report) }
        ensures reports { PassReports pass.old pass.new }
    {
        let mut report = report;
        let mut state = self.state.lock(rt);
        for _ in rt.forever() {
            let state_now = &mut *state;
            match state_now.report(pass, report) {
                Ok(()) => return,
                Err(back) => report = back,
            }
            state = self.unmet.wait(rt, state);
        }
        unreachable!()
    }

    /// Whether a report has come since the last drain. It is no entry of the history, so a master
    /// may ask as often as it likes.
    pub fn has_report<R: Wait>(&self, rt: &R) -> bool {
        self.state.lock(rt).has_report()
    }

    /// Waits until a report has come since the last drain. It is no entry of the history.
    pub fn wait_for_report<R: Wait>(&self, rt: &R) {
        let mut state = self.state.lock(rt);
        for _ in rt.forever() {
            if state.has_report() {
                return;
            }
            state = self.told.wait(rt, state);
        }
        unreachable!()
    }

    /// All reports since the last drain, in their order. Each drain is an entry of the history, an
    /// empty one too.
    pub fn drain<R: Wait>(&self, rt: &R, desk: &mut Desk<L, M>) -> Result<Reports<F>, NoMemory>
        ensures counted { IfOk result (λ reports.
            DeskCounts desk.old desk.new 1 (length reports)) }
        ensures stays { OnErr result (DeskCounts desk.old desk.new 0 0) }
    {
        self.state.lock(rt).drain(desk)
    }

    /// Takes the oldest pending offer of this name out, and says whether there was one.
    pub fn cancel<R: Wait>(&self, rt: &R, desk: &mut Desk<L, M>, name: PartName) -> bool
        ensures counted { DeskCounts desk.old desk.new 1 (cond result 1 0) }
    {
        let mut state = self.state.lock(rt);
        for _ in rt.forever() {
            let state_now = &mut *state;
            if let Some(out) = state_now.cancel(desk, name) {
                return out;
            }
            state = self.unmet.wait(rt, state);
        }
        unreachable!()
    }

    /// Ends all claims: each worker is told so at its next claim.
    pub fn stop<R: Wait>(&self, rt: &R, desk: &mut Desk<L, M>)
        requires { desk.old.stopped ≡ false }
        ensures stops { DeskStops desk.old desk.new }
    {
        self.enter_stop(rt, desk);
        for bell in &self.offered {
            bell.notify_all();
        }
    }

    fn enter_stop<R: Wait>(&self, rt: &R, desk: &mut Desk<L, M>)
        requires { desk.old.stopped ≡ false }
        ensures stops { DeskStops desk.old desk.new }
    {
        let mut state = self.state.lock(rt);
        for _ in rt.forever() {
            let state_now = &mut *state;
            if state_now.stop(desk) {
                return;
            }
            state = self.unmet.wait(rt, state);
        }
        unreachable!()
    }

    // On which the worker waits for an offer.
    fn bell(&self, worker: u32) -> &Condvar {
        match self.offered.as_slice().get(worker as usize) {
            Some(bell) => bell,
            None => &self.unmet,
        }
    }

    /// The history, once all tokens are back. Its length is the number of calls that the tokens
    /// count, and its claims, true cancels and drained reports are together what they count as
    /// taken.
    pub fn take_out(self, desk: Desk<L, M>, passes: Passes<L, M>) -> History
        requires all { (length passes + 1 ≡ L.parts) × (length passes + 1 ≡ M.parts) }
        ensures run { (workers : ℕ) × BoardRun workers result }
        ensures calls { length result
            ≡ desk.calls.amount + sum_by (λ pass. pass.calls.amount) passes }
        ensures takings { takings_of result
            ≡ desk.takings.amount + sum_by (λ pass. pass.takings.amount) passes }
    {
        let Desk {
            calls: mut all,
            takings: mut got,
            ..
        } = desk;
        let mut passes = passes.into_vec();
        while let Some(pass) = passes.pop() {
            let Pass { calls, takings, .. } = pass;
            all.merge(calls);
            got.merge(takings);
        }
        let Board { state, .. } = self;
        state.into_inner().into_history(&mut all, &mut got)
    }
}

// One for each worker.
fn bells(alloc: Global, workers: u32) -> Result<Vec<Condvar>, NoMemory> {
    let mut bells = Vec::with_capacity(alloc, workers as usize)?;
    for _ in 0..workers {
        bells.push(Condvar::new())?;
    }
    Ok(bells)
}

fn new_pass<L: Ledger, M: Ledger>(worker: u32, calls: Share<L>, takings: Share<M>) -> Pass<L, M>
    requires { (calls.parts ≡ 1) × (takings.parts ≡ 1) }
    ensures calls { result.calls ≡ calls }
    ensures takings { result.takings ≡ takings }
    ensures new { (result.worker ≡ worker) × (result.halted ≡ false) × (result.owed ≡ None) }
{
    Pass {
        worker,
        calls,
        takings,
        halted: false,
        owed: None,
    }
}

fn new_desk<L: Ledger, M: Ledger>(calls: Share<L>, takings: Share<M>) -> Desk<L, M>
    requires { (calls.parts ≡ 1) × (takings.parts ≡ 1) }
    ensures calls { result.calls ≡ calls }
    ensures takings { result.takings ≡ takings }
    ensures new { result.stopped ≡ false }
{
    Desk {
        calls,
        takings,
        stopped: false,
    }
}
