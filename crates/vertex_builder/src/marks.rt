ghost use Rattle.std.specs.Prelude.{◌≡◌, ◌<◌, ◌||◌, ℕ, nat_eq, false, length, get_or, IfOk};
ghost use Rattle.vertex_builder.specs.Links.{Marks};

use crate::NodeSet;
use row_core::NoMemory;
use std::alloc::Global;

/// Whether each of this many nodes stands in a set.
pub fn marks_of(alloc: Global, set: &NodeSet, count: usize) -> Result<Vec<bool>, NoMemory>
    ensures { IfOk result (λ marks. Marks set.now count marks.items) }
{
    let mut marks = vec![in alloc; false; count]?;
    for node in set.as_slice() {
        mark(&mut marks, *node as usize);
    }
    Ok(marks)
}

fn mark(marks: &mut Vec<bool>, place: usize)
    ensures len { length marks.new.items ≡ length marks.old.items }
    ensures marks { (k : ℕ) → k < length marks.old.items
        → get_or marks.new.items k false ≡ (nat_eq k place || get_or marks.old.items k false) }
{
    if place < marks.len() {
        marks[place] = true;
    }
}
