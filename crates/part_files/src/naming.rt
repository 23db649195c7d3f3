use estate::PartName;
use row_core::NoMemory;
use std::alloc::Global;

/// The name of a part's file: its four numbers with dots between.
pub fn part_text(alloc: Global, name: PartName) -> Result<String, NoMemory> {
    format!(in alloc;
        "{}.{}.{}.{}",
        name.vertex, name.subtask, name.epoch, name.attempt
    )
}

/// The part whose file has this name, if it is a part's.
pub fn part_named(alloc: Global, text: &str) -> Result<Option<PartName>, NoMemory> {
    let Some(name) = numbers(text) else {
        return Ok(None);
    };
    let spelled = part_text(alloc, name)?;
    if spelled.as_str() == text {
        Ok(Some(name))
    } else {
        Ok(None)
    }
}

fn numbers(text: &str) -> Option<PartName> {
    let (vertex, rest) = text.split_once('.')?;
    let (subtask, rest) = rest.split_once('.')?;
    let (epoch, attempt) = rest.split_once('.')?;
    Some(PartName {
        vertex: vertex.parse().ok()?,
        subtask: subtask.parse().ok()?,
        epoch: epoch.parse().ok()?,
        attempt: attempt.parse().ok()?,
    })
}
