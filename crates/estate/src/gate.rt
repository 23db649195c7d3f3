ghost use Rattle.std.specs.Prelude.{◌≡◌, IfErr};
ghost use Rattle.estate.specs.declared.part_name.PartName.{PartName as Name};

use crate::{GateFault, PartName};

/// Lets attempts in before they run. Generic code makes no fault of its own, so an attempt fails
/// only by its gate.
pub trait Gate: Sync {
    type Fault: GateFault;

    /// Which faults the gate may give for an attempt.
    ghost gives: { Self → Name → Self.Fault → Type 0 };

    fn enter(&self, name: PartName) -> Result<(), Self::Fault>
        ensures given { IfErr result (λ fault. gives self.now name fault) }
        ensures name { IfErr result (λ fault. Self.Fault.name_of fault ≡ name) };
}
