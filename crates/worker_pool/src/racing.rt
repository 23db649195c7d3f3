ghost use Rattle.std.specs.Prelude.{◌≡◌, ◌<◌, IfSome};
ghost use Rattle.race_words.specs.Seats.{lanes_of, view_of, IsSeatOf};
ghost use Rattle.worker_pool.specs.Told.{WasLost, Outcome};

use race_board::Race;
use race_words::{Finish, Poll, Races, Seat};

/// The runner for which the round is decided, if it is another.
pub fn winner_so_far(races: &Races, seat: &mut Seat, race: &Race) -> Option<u8>
    requires lane { race.now.lane < lanes_of races.now }
    requires seat { IsSeatOf races.now seat.old }
    ensures lost { IfSome result (λ winner. WasLost race.now winner (view_of seat.new)) }
    ensures seat { IsSeatOf races.now seat.new }
    ensures same { (view_of seat.new).is_master ≡ (view_of seat.old).is_master }
{
    match races.poll(race.lane, race.round, seat) {
        Poll::Decided(winner) => if winner == race.runner {
            None
        } else {
            Some(winner)
        },
        Poll::Undecided => None,
        Poll::Past(_) => None,
    }
}

/// The runner for which the round is decided, if it is another, now that this one is done.
pub fn winner_at_last(races: &Races, seat: &mut Seat, race: &Race) -> Option<u8>
    requires lane { race.now.lane < lanes_of races.now }
    requires seat { IsSeatOf races.now seat.old }
    ensures outcome { Outcome race.now result (view_of seat.new) }
    ensures seat { IsSeatOf races.now seat.new }
    ensures same { (view_of seat.new).is_master ≡ (view_of seat.old).is_master }
{
    match races.poll(race.lane, race.round, seat) {
        Poll::Decided(winner) => if winner == race.runner {
            None
        } else {
            Some(winner)
        },
        Poll::Past(_) => None,
        Poll::Undecided => match races.finish(race.lane, race.round, race.runner, seat) {
            Finish::Won => None,
            Finish::Past(_) => None,
            Finish::Lost(winner) => Some(winner),
        },
    }
}
