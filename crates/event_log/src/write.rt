ghost use Rattle.std.specs.Prelude.{◌≡◌, ◌≤◌, ◌++◌, [], ◌∷◌, length, None, IsTrue, IfOk, OnOk, IsErrOf};
ghost use Rattle.estate.specs.declared.estate_error.EstateError.TheVariants as estate_error;
ghost use Rattle.estate.specs.Changes.{Stays, Leads, Writes, LogCause, LogSteady};
ghost use Rattle.event_log.specs.Blocks.{frame};
ghost use Rattle.event_log.specs.Started.{HasWritten};

use estate::{Estate, EstateError};
use row_core::{Bytes, NoMemory};
use std::alloc::Global;

/// What is written behind a closed gate: a length, the body and the next closed gate.
pub fn staged(alloc: Global, body: &Bytes) -> Result<Bytes, NoMemory>
    ensures { IfOk result (λ bytes. bytes ≡ frame body.now ++ 0 ∷ []) }
{
    let mut bytes = Vec::with_capacity(alloc, body.len() + 9)?;
    bytes.extend_from_slice(&(body.len() as u64).to_be_bytes())?;
    bytes.extend_from_slice(body.as_slice())?;
    bytes.push(0)?;
    Ok(Bytes::from_vec(bytes))
}

/// A write, and then a sync.
pub fn write_synced<E: Estate>(estate: &mut E, at: u64, bytes: &Bytes) -> Result<(), EstateError>
    requires { IsTrue (E.world estate.old).told → at ≤ length (E.world estate.old).holding.log }
    ensures leads { Leads (Writes at bytes.now) (E.world estate.old) (E.world estate.new) }
    ensures durable { OnOk result (IsTrue (E.world estate.old).told →
        HasWritten at bytes.now (E.world estate.old) (E.world estate.new)) }
    ensures memory { IsErrOf result estate_error.NoMemory →
        Leads Stays (E.world estate.old) (E.world estate.new) }
    ensures cause { LogCause (E.world estate.old) (E.world estate.new) result }
    ensures steady { LogSteady (E.world estate.old) (E.world estate.new) result }
{
    estate.log_write(at, bytes)?;
    estate.log_sync()
}
