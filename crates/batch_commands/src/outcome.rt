ghost use Rattle.std.specs.Prelude.{◌≡◌};
ghost use Rattle.batch_commands.specs.Answers.{status_of};

use crate::Answer;

/// The answer of a call, and the exit status that goes with it.
#[derive(Debug, Drop)]
pub struct Outcome {
    pub answer: Answer,
    pub status: u8,
}

impl Outcome {
    pub fn new(answer: Answer) -> Self
        ensures answer { result.answer ≡ answer }
        ensures status { result.status ≡ status_of answer }
    {
        let status = status(&answer);
        Outcome { answer, status }
    }
}

fn status(answer: &Answer) -> u8
    ensures { result ≡ status_of answer.now }
{
    match answer {
        Answer::Finished | Answer::Shown => 0,
        Answer::Usage { .. } => 1,
        Answer::JobRefused { .. } => 2,
        Answer::LogFault => 4,
        Answer::SinkFault => 6,
        Answer::InputFault => 7,
        Answer::PrintFault => 8,
        Answer::BadLog { .. } => 9,
        Answer::TooLarge { .. } => 14,
        Answer::NoMemory => 15,
        Answer::NotBuilt { .. } => 18,
    }
}
