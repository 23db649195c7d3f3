use estate::{Names, PartName};
use slot_pool::SlotId;
use std::marker::Model;

/// An attempt that was deployed and has not arrived.
#[derive(Debug, Drop)]
pub struct Deployed {
    pub name: PartName,
    /// The parts that it reads.
    pub inputs: Names,
    pub slot: SlotId,
    /// The last moment at its deployment, in milliseconds.
    pub since: u64,
}

impl Model for Deployed {
    ghost use Rattle.core_model.specs.Cores.{Deployment};

    ghost Value = { Deployment };

    ghost view = { λ d. record {
      name = d.name;
      inputs = d.inputs;
      slot = d.slot;
      since = d.since;
    } };
}
