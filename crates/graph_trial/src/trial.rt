use crate::trial_error::TrialError;

/// How much is tried.
#[derive(Clone, Copy, Debug)]
pub struct Trial {
    /// of the plan
    pub nodes: u32,
    /// of each vertex
    pub subtasks: u32,
}

/// What the words ask for.
pub fn trial_of(words: &[String]) -> Result<Trial, TrialError> {
    match words {
        [] => Ok(Trial {
            nodes: 4,
            subtasks: 3,
        }),
        [nodes, subtasks] => Ok(Trial {
            nodes: number(nodes)?,
            subtasks: number(subtasks)?,
        }),
        _ => Err(TrialError::Words),
    }
}

fn number(word: &String) -> Result<u32, TrialError> {
    match word.as_str().parse() {
        Ok(number) => Ok(number),
        Err(_) => Err(TrialError::Words),
    }
}
