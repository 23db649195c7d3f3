ghost use Rattle.std.specs.Prelude.{◌<◌, length, IfOk};
ghost use Rattle.medians.specs.Medians.{IsMedian};

use std::alloc::{AllocError, Global};

/// The number in the middle of some, the lower one of two. The numbers may come in any order.
pub fn median(alloc: Global, numbers: &[u64]) -> Result<u64, AllocError>
    requires { 0 < length numbers.now }
    ensures { IfOk result (IsMedian numbers.now) }
{
    let mut sorted = Vec::from_slice(alloc, numbers)?;
    sorted.sort()?;
    Ok(sorted[(numbers.len() - 1) / 2])
}
