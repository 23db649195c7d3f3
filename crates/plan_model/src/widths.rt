ghost use Rattle.std.specs.Prelude.{◌≡◌, ◌≤◌, get_or, All, IfOk};
ghost use Rattle.row_core.specs.Values.{width_limit};
ghost use Rattle.plan_model.specs.Widths.{input_widths};

use row_core::{Columns, NoMemory};
use std::alloc::Global;

/// How many columns the sides of a join have.
#[derive(Clone, Copy, Debug, PartialEq, Eq)]
pub struct Widths {
    pub left: u32,
    pub right: u32,
}

/// The width at a place, 0 where there is none.
pub fn width_at(widths: &[u32], place: u32) -> u32
    ensures { result ≡ get_or widths.now place 0 }
{
    match widths.get(place as usize) {
        Some(width) => *width,
        None => 0,
    }
}

/// The widths of these inputs, of nodes whose rows have at most 256 values.
pub fn widths_at(alloc: Global, widths: &[u32], inputs: &Columns) -> Result<Vec<u32>, NoMemory>
    requires { All (λ width. width ≤ width_limit) widths.now }
    ensures widths { IfOk result (λ found. found.items ≡ input_widths widths.now inputs.now) }
    ensures narrow { IfOk result (λ found. All (λ width. width ≤ width_limit) found.items) }
{
    let inputs = inputs.as_slice();
    let mut found = Vec::with_capacity(alloc, inputs.len())?;
    for input in inputs {
        found.push(width_at(widths, *input))?;
    }
    Ok(found)
}
