ghost use Rattle.std.specs.Prelude.{◌≡◌, ◌<◌, ◌≤◌, ◌^◌, ◌↔◌, ◌⊎◌, length, not, false, get_or, position, slice_set, max, All, IsTrue, IsNone, IfSome, IfOk, Some};
ghost use Rattle.slot_pool.specs.Pool.{idle};

use crate::NoMemory;
use std::alloc::Global;
use std::marker::Model;

/// One worker's slots, and the end of its block.
#[derive(Debug, Drop)]
pub struct Worker {
    taken: Vec<bool>,
    block_end: u64,
}

impl Model for Worker {
    ghost use Rattle.std.specs.Prelude.{◌<◌, ◌^◌, length};
    ghost use Rattle.slot_pool.specs.Pool.{WorkerSlots};

    ghost Value = { WorkerSlots };

    ghost view = { λ w. record { taken = w.taken.items; block_end = w.block_end } };

    ghost invariant = { λ w. length w.taken.items < 2 ^ 32 };
}

impl Worker {
    /// A worker with this many free slots, and no block.
    pub fn new(alloc: Global, each: u32) -> Result<Self, NoMemory>
        ensures { IfOk result (λ worker. worker ≡ idle each) }
    {
        Ok(Worker {
            taken: vec![in alloc; false; each as usize]?,
            block_end: 0,
        })
    }

    /// The lowest free slot, unless the worker is blocked at this millisecond.
    pub fn lowest_free(&self, now: u64) -> Option<u32>
        ensures none { IsNone result ↔ ((now < self.now.block_end) ⊎ All IsTrue self.now.taken) }
        ensures lowest { IfSome result (λ slot. position not self.now.taken ≡ Some slot) }
        ensures free { IfSome result
            (λ slot. (slot < length self.now.taken) × (get_or self.now.taken slot false ≡ false)) }
    {
        if now < self.block_end {
            return None;
        }
        let slot = first_free(&self.taken)?;
        Some(slot as u32)
    }

    /// Whether the slot is free or taken from now on.
    pub fn mark(&mut self, slot: u32, taken: bool)
        requires { slot < length self.old.taken }
        ensures { self.new ≡ record self.old { taken = slice_set self.old.taken slot taken } }
    {
        self.taken[slot as usize] = taken;
    }

    /// Blocks the worker until this millisecond, and longer where it is blocked for longer.
    pub fn block(&mut self, until: u64)
        ensures { self.new ≡ record self.old { block_end = max self.old.block_end until } }
    {
        self.block_end = self.block_end.max(until);
    }
}

fn first_free(taken: &[bool]) -> Option<usize>
    ensures lowest { result ≡ position not taken.now }
    ensures none { IsNone result ↔ All IsTrue taken.now }
    ensures free { IfSome result
        (λ slot. (slot < length taken.now) × (get_or taken.now slot false ≡ false)) }
{
    taken.iter().position(|taken| !*taken)
}
