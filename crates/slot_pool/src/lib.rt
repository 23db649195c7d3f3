//! The workers' slots: which are taken, and until when a worker is blocked. A subtask is deployed
//! into a free slot of a worker that is not blocked.
#![tactic(auto)]

mod no_memory;
mod slot_id;
mod slots;
mod worker;

pub use no_memory::NoMemory;
pub use slot_id::SlotId;
pub use slots::Slots;
