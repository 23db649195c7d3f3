use crate::write::Write;
use std::alloc::Global;

/// A log on a disk, and the writes since its last sync.
#[derive(Debug, Drop)]
pub struct MemDisk {
    pub durable: Vec<u8>,
    pub writes: Vec<Write>,
}

impl MemDisk {
    ghost use Rattle.std.specs.Prelude.{◌≡◌, []};
    ghost use Rattle.estate.specs.Disk.{mem_disk};

    pub fn new(alloc: Global) -> Self
        ensures { mem_disk result ≡ record { durable = []; writes = [] } }
    {
        MemDisk {
            durable: Vec::new(alloc),
            writes: Vec::new(alloc),
        }
    }
}
