use crate::trial_error::TrialError;
use estate::{Edge, Edges, PartName};
use row_core::{Bytes, NoMemory};
use std::alloc::Global;

/// How much is tried.
#[derive(Clone, Copy, Debug)]
pub struct Trial {
    pub parts: u32,
    /// of the first cell of each part
    pub bytes: u32,
    pub blocks: u32,
}

/// What the words ask for.
pub fn trial_of(words: &[String]) -> Result<Trial, TrialError> {
    match words {
        [] => Ok(Trial {
            parts: 3,
            bytes: 100,
            blocks: 3,
        }),
        [parts, bytes, blocks] => Ok(Trial {
            parts: number(parts)?,
            bytes: number(bytes)?,
            blocks: number(blocks)?,
        }),
        _ => Err(TrialError::Words),
    }
}

fn number(word: &String) -> Result<u32, TrialError> {
    match word.as_str().parse() {
        Ok(number) => Ok(number),
        Err(_) => Err(TrialError::Words),
    }
}

pub fn part_name(part: u32) -> PartName {
    PartName {
        vertex: 0,
        subtask: part,
        epoch: 1,
        attempt: 0,
    }
}

/// The edges of a part: one, of a full and an empty cell.
pub fn part_edges(alloc: Global, part: u32, bytes: u32) -> Result<Edges, NoMemory> {
    let mut edge = Edge::new(alloc);
    edge.push(filled(alloc, part, bytes)?)?;
    edge.push(Bytes::new(alloc))?;
    let mut edges = Edges::new(alloc);
    edges.push(edge)?;
    Ok(edges)
}

/// So many bytes, all of the number's last byte.
pub fn filled(alloc: Global, number: u32, bytes: u32) -> Result<Bytes, NoMemory> {
    let [_, _, _, last] = number.to_be_bytes();
    Ok(Bytes::from_vec(vec![in alloc; last; bytes as usize]?))
}
