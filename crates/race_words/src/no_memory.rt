use std::alloc::AllocError;

/// The answer of a call that fails for want of memory alone: whatever it was given is unchanged.
pub type NoMemory = AllocError;
