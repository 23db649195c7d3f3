ghost use Rattle.std.specs.Prelude.{◌≡◌, ◌+◌, ◌<◌, ◌^◌, IfOk, IsTrue, IsFalse, slice_index};
ghost use Rattle.race_words.specs.Views.{opening_view, newcomer, began, joined};
ghost use Rattle.race_words.specs.Kept.{Agree};
ghost use Rattle.race_words.specs.Seats.{lanes_of, view_of, IsSeatOf, Polled, Finished};

use crate::rule::{Begin, Compare, Decide, Observe, ReadRound, Rule, Worker};
use crate::word::{ROUNDS, decided_word, finish_answer, poll_answer, round_of, undecided_word};
use crate::{Finish, NoMemory, Poll, Races, Seat, View};
use atomic_table::Table;
use std::alloc::Global;

impl Races {
    /// So many lanes, each in round 0, and the master's seat.
    pub fn new(alloc: Global, lanes: u32) -> Result<(Races, Seat), NoMemory>
        requires { 0 < lanes }
        ensures lanes { IfOk result (λ made. lanes_of made.0 ≡ lanes) }
        ensures seat { IfOk result (λ made. IsSeatOf made.0 made.1) }
        ensures view { IfOk result (λ made. view_of made.1 ≡ opening_view lanes) }
    {
        let words = vec![in alloc; 0u64; lanes as usize]?;
        let (table, seat) = Table::<(), View, u64, Rule, Global>::of_words(
            alloc,
            words.as_slice(),
            &u64::from(lanes),
        )?;
        Ok((Races { table, lanes }, Seat { seat }))
    }

    pub fn lanes(&self) -> u32
        ensures { result ≡ lanes_of self.now }
    {
        self.lanes
    }

    /// Begins the lane's next round, which is undecided, and gives its number.
    pub fn begin(&self, lane: u32, seat: &mut Seat) -> u64
        requires lane { lane < lanes_of self.now }
        requires seat { IsSeatOf self.now seat.old }
        requires master { IsTrue (view_of seat.old).is_master }
        requires room { slice_index (view_of seat.old).rounds lane + 1 < 2 ^ 56 }
        ensures next { result ≡ slice_index (view_of seat.old).rounds lane + 1 }
        ensures view { view_of seat.new ≡ began lane result (view_of seat.old) }
        ensures seat { IsSeatOf self.now seat.new }
    {
        let shared = &self.table.shared;
        let word = shared.load::<ReadRound>(&mut seat.seat, lane as usize);
        let round = round_of(word) + 1;
        shared.swap::<Begin>(&mut seat.seat, lane as usize, undecided_word(round));
        round
    }

    /// What the lane shows of the round.
    pub fn poll(&self, lane: u32, round: u64, seat: &mut Seat) -> Poll
        requires lane { lane < lanes_of self.now }
        requires seat { IsSeatOf self.now seat.old }
        ensures polled { Polled lane round (view_of seat.old) result (view_of seat.new) }
        ensures seat { IsSeatOf self.now seat.new }
    {
        let shared = &self.table.shared;
        let word = shared.load::<Observe>(&mut seat.seat, lane as usize);
        poll_answer(round, word)
    }

    /// Decides the round for this runner, if it is undecided.
    pub fn finish(&self, lane: u32, round: u64, runner: u8, seat: &mut Seat) -> Finish
        requires lane { lane < lanes_of self.now }
        requires runner { runner < 8 }
        requires seat { IsSeatOf self.now seat.old }
        ensures finished { Finished lane round runner (view_of seat.old) result (view_of seat.new) }
        ensures seat { IsSeatOf self.now seat.new }
    {
        let shared = &self.table.shared;
        let lane = lane as usize;
        if round >= ROUNDS {
            return Finish::Past(round_of(shared.load::<Observe>(&mut seat.seat, lane)));
        }
        let open = undecided_word(round);
        let won = decided_word(round, runner);
        let word = shared.compare_exchange::<Decide>(&mut seat.seat, lane, open, won);
        finish_answer(round, word)
    }

    /// A worker's seat, which has observed nothing yet.
    pub fn split(&self, seat: &mut Seat) -> Seat
        requires { IsSeatOf self.now seat.old }
        ensures same { view_of seat.new ≡ view_of seat.old }
        ensures new { view_of result ≡ newcomer }
        ensures seats { IsSeatOf self.now seat.new × IsSeatOf self.now result }
    {
        Seat {
            seat: self.table.shared.split_seat::<Worker>(&mut seat.seat),
        }
    }

    /// The seat takes in what a worker's seat has observed, and all of it agrees.
    pub fn join(&self, seat: &mut Seat, other: Seat)
        requires seat { IsSeatOf self.now seat.old }
        requires other { IsSeatOf self.now other }
        requires worker { IsFalse (view_of other).is_master }
        ensures view { view_of seat.new ≡ joined (view_of seat.old) (view_of other) }
        ensures agree { Agree (view_of seat.new).observations }
        ensures seat { IsSeatOf self.now seat.new }
    {
        let Seat { seat: other } = other;
        let shared = &self.table.shared;
        shared.join_seat::<Worker>(&mut seat.seat, other);
        shared.load::<Compare>(&mut seat.seat, 0);
    }
}
