//! Estates in memory.

ghost use Rattle.std.specs.Prelude.{◌≡◌, IfOk};
ghost use Rattle.estate.specs.Holding.{empty_holding};
ghost use Rattle.estate.specs.Memory.{mem_world};

use estate::{Estate, EstateError, Losses, MemEstate, Numbers};
use row_core::{Bytes, NoMemory};
use std::alloc::Global;

/// These numbers.
pub fn numbers(alloc: Global, items: &[u64]) -> Result<Numbers, NoMemory> {
    Ok(Numbers::from_vec(items.to_vec(alloc)?))
}

/// A new estate, of which these calls fail and nothing is lost.
pub fn failing_at(alloc: Global, calls: &[u64]) -> Result<MemEstate, NoMemory>
    ensures { IfOk result (λ made. (mem_world made).holding ≡ empty_holding) }
{
    let losses = Losses::from_vec(Vec::new(alloc));
    MemEstate::new(alloc, &numbers(alloc, calls)?, &losses)
}

/// The whole log.
pub fn whole_log<E: Estate>(estate: &mut E) -> Result<Bytes, EstateError> {
    let len = estate.log_len()?;
    estate.log_read(0, len)
}
