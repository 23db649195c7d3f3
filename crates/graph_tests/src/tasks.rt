//! Tasks by the lists of what each reads from.

ghost use Rattle.std.specs.Bool.{OnTrue};
ghost use Rattle.std.specs.Prelude.{◌<◌, All};

use crate::bounds::are_below;
use reader_index::{Producers, ReaderIndex};
use row_core::NoMemory;
use std::alloc::Global;

fn lists_below(lists: &[Producers], end: usize) -> bool
    ensures { OnTrue result (All (All (λ number. number < end)) lists.now) }
{
    lists.iter().all(|list| are_below(list.as_slice(), end))
}

fn producers(alloc: Global, lists: &[&[usize]]) -> Result<Vec<Producers>, NoMemory> {
    let mut made = Vec::new(alloc);
    for list in lists {
        made.push(Producers::from_vec(list.to_vec(alloc)?))?;
    }
    Ok(made)
}

/// The tasks of these groups, which are added one after the other. A group is left out where it
/// reads from tasks that do not stand yet.
pub fn index_of(alloc: Global, groups: &[&[&[usize]]]) -> Result<ReaderIndex, NoMemory> {
    let mut index = ReaderIndex::new(alloc);
    for group in groups {
        let tasks = producers(alloc, group)?;
        if lists_below(tasks.as_slice(), index.count()) {
            index.add_tasks(tasks.as_slice())?;
        }
    }
    Ok(index)
}
