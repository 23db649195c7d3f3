ghost use Rattle.std.specs.Prelude.{◌≡◌, ◌<◌};

use crate::View;
use crate::rule::Rule;
use atomic_table::Table;
use std::alloc::Global;

/// The lanes, each a word; docs/FORMATS.md has the word. Any number of threads may use them at
/// once, each by a seat of its own. A lane is given by its number, from 0.
#[derive(Drop)]
pub struct Races {
    pub(crate) table: Table<(), View, u64, Rule, Global>,
    pub(crate) lanes: u32,
    ghost words: { table.shared.table_id.words ≡ lanes },
    ghost key: { table.shared.key ≡ lanes },
    ghost some: { 0 < lanes },
}
