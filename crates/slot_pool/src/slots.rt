ghost use Rattle.std.specs.Prelude.{◌≡◌, ◌≢◌, ◌*◌, ◌<◌, ◌≤◌, ◌^◌, ◌↔◌, ◌⊎◌, length, replicate, slice_set, max, All, IsTrue, IsNone, IfOk, IfSome, IfNone, true, false};

use crate::worker::Worker;
use crate::{NoMemory, SlotId};
use std::alloc::Global;
use std::marker::Model;

/// The slots of all workers. Contracts see a list, by the workers' numbers: which slots of the
/// worker are taken, and the end of its block.
#[derive(Debug, Drop)]
pub struct Slots {
    workers: Vec<Worker>,
    free: u32,
}

impl Model for Slots {
    ghost use Rattle.std.specs.Prelude.{◌≡◌, ◌<◌, ◌^◌, List};
    ghost use Rattle.slot_pool.specs.Pool.{WorkerSlots, free_slots, slots_of};

    ghost Value = { List WorkerSlots };

    ghost view = { λ s. s.workers.items };

    ghost invariant = { λ s. (s.free ≡ free_slots s.workers.items)
        × (slots_of s.workers.items < 2 ^ 32) };
}

impl Slots {
    ghost use Rattle.slot_pool.specs.declared.slot_id.SlotId.{SlotId};
    ghost use Rattle.slot_pool.specs.Pool.{idle, worker_of, lowest_free, is_taken, with_slot, free_slots, ChangesOnly};

    /// This many workers with this many slots each, all free, and no worker blocked.
    pub fn new(alloc: Global, workers: u32, each: u32) -> Result<Self, NoMemory>
        requires { workers * each < 2 ^ 32 }
        ensures { IfOk result (λ pool. pool ≡ replicate workers (idle each)) }
    {
        let mut pool = Vec::with_capacity(alloc, workers as usize)?;
        for _ in 0..workers {
            pool.push(Worker::new(alloc, each)?)?;
        }
        Ok(Slots {
            workers: pool,
            free: workers * each,
        })
    }

    /// Takes the worker's lowest free slot; none where it has no free slot, or is blocked at this
    /// millisecond.
    pub fn take(&mut self, worker: u32, now: u64) -> Option<SlotId>
        requires { worker < length self.old }
        ensures none { IsNone result ↔ ((now < (worker_of self.old worker).block_end)
            ⊎ All IsTrue (worker_of self.old worker).taken) }
        ensures lowest { IfSome result (λ id. lowest_free self.old worker ≡ Some id) }
        ensures free { IfSome result
            (λ id. (id.worker ≡ worker) × ¬ (IsTrue (is_taken self.old id))) }
        ensures taken { IfSome result (λ id. self.new ≡ with_slot self.old id true) }
        ensures others { IfSome result (λ id. ChangesOnly self.old self.new id true) }
        ensures same { IfNone result (self.new ≡ self.old) }
    {
        let slot = self.workers[worker as usize].lowest_free(now)?;
        self.workers[worker as usize].mark(slot, true);
        self.free -= 1;
        Some(SlotId { worker, slot })
    }

    /// Gives back a slot that is taken.
    pub fn give(&mut self, slot: SlotId)
        requires { IsTrue (is_taken self.old slot) }
        ensures freed { self.new ≡ with_slot self.old slot false }
        ensures others { ChangesOnly self.old self.new slot false }
    {
        self.workers[slot.worker as usize].mark(slot.slot, false);
        self.free += 1;
    }

    /// Blocks the worker until this millisecond; a block that ends later stays as it is.
    pub fn block(&mut self, worker: u32, until: u64)
        requires { worker < length self.old }
        ensures blocked { let old = worker_of self.old worker in
            self.new ≡ slice_set self.old worker
            (record old { block_end = max old.block_end until }) }
        ensures others { (id : SlotId) → is_taken self.new id ≡ is_taken self.old id }
    {
        self.workers[worker as usize].block(until);
    }

    /// How many slots of all workers are free.
    pub fn free(&self) -> u32
        ensures { result ≡ free_slots self.now }
    {
        self.free
    }
}
