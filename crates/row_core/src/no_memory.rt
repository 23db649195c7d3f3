use std::alloc::AllocError;

/// The answer of a call that fails for want of memory alone: what it works on is unchanged.
pub type NoMemory = AllocError;
