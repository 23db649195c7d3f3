use exec_graph::{GraphError, Verdict};
use row_core::NoMemory;
use std::alloc::AllocError;

/// What a graph answers to an event.
#[derive(Clone, Copy, Debug, PartialEq, Eq)]
pub enum Answer {
    Taken,
    Illegal,
    NotCover,
    Stale,
    Double,
}

pub fn answered(taken: Result<(), GraphError>) -> Result<Answer, NoMemory> {
    match taken {
        Ok(()) => Ok(Answer::Taken),
        Err(error) => refusal(error),
    }
}

pub fn judged(verdict: Result<Verdict, GraphError>) -> Result<Answer, NoMemory> {
    match verdict {
        Ok(Verdict::Win) => Ok(Answer::Taken),
        Ok(Verdict::Stale(_)) => Ok(Answer::Stale),
        Ok(Verdict::Double(_)) => Ok(Answer::Double),
        Err(error) => refusal(error),
    }
}

fn refusal(error: GraphError) -> Result<Answer, NoMemory> {
    match error {
        GraphError::Illegal => Ok(Answer::Illegal),
        GraphError::NotCover => Ok(Answer::NotCover),
        GraphError::NoMemory => Err(AllocError),
    }
}
