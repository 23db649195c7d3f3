use crate::trial_error::TrialError;

/// How much is tried.
#[derive(Clone, Copy, Debug)]
pub struct Trial {
    /// of the plan
    pub nodes: u32,
    /// of each vertex
    pub subtasks: u32,
    /// in each of which every subtask is finished
    pub rounds: u32,
}

impl Trial {
    /// How many vertices the plan has: a source, and filters, the last of which has the sink too.
    pub fn vertices(self) -> u32 {
        self.nodes.saturating_sub(1)
    }
}

/// What the words ask for.
pub fn trial_of(words: &[String]) -> Result<Trial, TrialError> {
    match words {
        [] => Ok(Trial {
            nodes: 4,
            subtasks: 3,
            rounds: 2,
        }),
        [nodes, subtasks, rounds] => Ok(Trial {
            nodes: number(nodes)?,
            subtasks: number(subtasks)?,
            rounds: number(rounds)?,
        }),
        _ => Err(TrialError::Words),
    }
}

fn number(word: &String) -> Result<u32, TrialError> {
    match word.as_str().parse() {
        Ok(number) => Ok(number),
        Err(_) => Err(TrialError::Words),
    }
}
