use crate::{Edges, PartName};
use row_core::NoMemory;
use std::alloc::Global;

/// A part that was put, the moment from which on it stands, and the one from which on it is lost.
#[derive(Debug, Drop)]
pub struct Shelved {
    pub since: u64,
    pub name: PartName,
    pub edges: Edges,
    pub lost: Option<u64>,
}

impl Shelved {
    ghost use Rattle.std.specs.Prelude.{◌≡◌, IfOk};
    ghost use Rattle.estate.specs.Shelf.{recalled};

    /// A copy that stands since the beginning, and is lost where it was at a moment.
    pub fn copy_at(&self, alloc: Global, moment: u64) -> Result<Shelved, NoMemory>
        ensures { IfOk result (λ made. made ≡ recalled moment self.now) }
    {
        let lost = match self.lost {
            Some(since) if since <= moment => Some(0),
            _ => None,
        };
        Ok(Shelved {
            since: 0,
            name: self.name,
            edges: self.edges.copy(alloc)?,
            lost,
        })
    }
}
