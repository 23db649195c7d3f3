ghost use Rattle.std.specs.Prelude.{◌≢◌, ◌<◌, All, AllPairs, IfOk, length};
ghost use Rattle.graph_model.specs.Indexes.{sub_at};
ghost use Rattle.region_closure.specs.Closing.{ArePicked};

use graph_model::{Sub, Subs};
use row_core::NoMemory;
use std::alloc::Global;

/// The subtasks of these numbers, by vertex and then by number.
pub fn picked_subs(alloc: Global, subs: &[Sub], numbers: &[usize]) -> Result<Subs, NoMemory>
    requires inside { All (λ n. n < length subs.now) numbers.now }
    requires apart { AllPairs (λ n m. sub_at subs.now n ≢ sub_at subs.now m) numbers.now }
    ensures { IfOk result (λ set. ArePicked subs.now numbers.now set) }
{
    let mut set = Vec::with_capacity(alloc, numbers.len())?;
    for number in numbers {
        set.push(subs[*number])?;
    }
    set.sort()?;
    Ok(Subs::from_vec(set))
}
