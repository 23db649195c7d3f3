ghost use Rattle.std.specs.Prelude.{◌≡◌, ◌+◌, ◌<◌, ◌≤◌, ◌^◌};
ghost use Rattle.race_words.specs.Words.{round_of, winner_of, undecided, decided, PollShows, FinishShows};

use crate::{Finish, Poll};

/// Rounds below this fit into a word.
pub const ROUNDS: u64 = 1 << 56;

pub fn undecided_word(round: u64) -> u64
    requires { round < 2 ^ 56 }
    ensures { result ≡ undecided round }
{
    round * 256
}

pub fn decided_word(round: u64, runner: u8) -> u64
    requires round { round < 2 ^ 56 }
    requires runner { runner < 8 }
    ensures { result ≡ decided round runner }
{
    round * 256 + (u64::from(runner) + 1)
}

pub fn round_of(word: u64) -> u64
    ensures { result ≡ round_of word }
{
    word / 256
}

fn winner_of(word: u64) -> Option<u8>
    ensures { result ≡ winner_of word }
{
    let mark = word % 256;
    if mark == 0 {
        return None;
    }
    Some((mark - 1) as u8)
}

/// What the word says to a poll of the round.
pub fn poll_answer(round: u64, word: u64) -> Poll
    ensures { PollShows round word result }
{
    let shown = round_of(word);
    if shown != round {
        return Poll::Past(shown);
    }
    match winner_of(word) {
        None => Poll::Undecided,
        Some(winner) => Poll::Decided(winner),
    }
}

/// What it says that an exchange found this word, where it was to find the round undecided.
pub fn finish_answer(round: u64, word: u64) -> Finish
    ensures { FinishShows round word result }
{
    let shown = round_of(word);
    if shown != round {
        return Finish::Past(shown);
    }
    match winner_of(word) {
        None => Finish::Won,
        Some(winner) => Finish::Lost(winner),
    }
}
