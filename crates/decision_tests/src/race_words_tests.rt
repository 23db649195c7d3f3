ghost use Rattle.std.specs.Prelude.{◌≡◌, ◌<◌, All, IfOk};
ghost use Rattle.race_words.specs.Seats.{IsSeatOf, lanes_of};

use race_words::{Finish, Poll, Races, Seat};
use row_core::NoMemory;
use std::alloc::Global;
use std::test::Fail;
use std::thread;
use std::thread::Threads;

#[test]
fn one_runner_wins_a_round(rt: HostRuntime) -> Result<(), Fail> {
    let (races, mut seat) = Races::new(rt.alloc(), 1)?;
    assert_eq!(rt; races.begin(0, &mut seat), 1);
    assert_eq!(rt; races.finish(0, 1, 1, &mut seat), Finish::Won);
    assert_eq!(rt; races.finish(0, 1, 0, &mut seat), Finish::Lost(1));
    assert_eq!(rt; races.begin(0, &mut seat), 2);
    assert_eq!(rt; races.finish(0, 1, 0, &mut seat), Finish::Past(2));
    assert_eq!(rt; races.poll(0, 2, &mut seat), Poll::Undecided);
    Ok(())
}

// A thread's seat and number, and whether it has won.
#[derive(Drop)]
struct Runner {
    seat: Seat,
    number: u8,
    has_won: bool,
}

fn eight_runners(alloc: Global, races: &Races, seat: &mut Seat) -> Result<Vec<Runner>, NoMemory>
    requires { IsSeatOf races.now seat.old }
    ensures seat { IsSeatOf races.now seat.new }
    ensures runners { IfOk result (λ runners.
        All (λ runner. IsSeatOf races.now runner.seat) runners.items) }
{
    let mut runners = Vec::new(alloc);
    for number in 0..8u8 {
        runners.push(Runner {
            seat: races.split(seat),
            number,
            has_won: false,
        })?;
    }
    Ok(runners)
}

fn finish(races: &Races, lane: u32, runner: &mut Runner)
    requires lane { lane < lanes_of races.now }
    requires seat { IsSeatOf races.now runner.old.seat }
{
    let answer = races.finish(lane, 0, runner.number % 8, &mut runner.seat);
    runner.has_won = answer == Finish::Won;
}

// How many win a round that all of them finish at once, each in a thread of its own.
fn count_wins<R: Threads + Sync>(rt: &R, races: &Races, lane: u32, runners: &mut [Runner]) -> usize
    requires lane { lane < lanes_of races.now }
    requires seats { All (λ runner. IsSeatOf races.now runner.seat) runners.old }
{
    thread::for_each_mut(rt, runners, 8, &|_, runner| finish(races, lane, runner));
    runners.iter().filter(|runner| runner.has_won).count()
}

#[test]
fn of_eight_threads_one_wins_each_of_10000_rounds(rt: HostRuntime) -> Result<(), Fail> {
    let (races, mut seat) = Races::new(rt.alloc(), 10_000)?;
    for lane in 0..races.lanes() {
        let mut runners = eight_runners(rt.alloc(), &races, &mut seat)?;
        let wins = count_wins(&rt, &races, lane, runners.as_mut_slice());
        assert_eq!(rt; wins, 1, "in the round of lane {lane}");
    }
    Ok(())
}
