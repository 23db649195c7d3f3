// Clauses on what was printed hold where the printer tells it.
ghost use Rattle.std.specs.Prelude.{◌≡◌, ◌++◌, IsTrue, OnOk, OnErr};
ghost use Rattle.estate.specs.Printed.{Printed, KeepsPrinted, AddsPart};
ghost use Rattle.estate.specs.Changes.{Rose};

use crate::PrintFailed;
use row_core::Bytes;

/// Where the answer's line goes.
pub trait Printer {
    /// What was printed, and how often printing has failed.
    ghost printed: { Self → Printed };

    /// Adds the bytes, or a first part of them where it fails. Takes no memory.
    fn print(&mut self, bytes: &Bytes) -> Result<(), PrintFailed>
        ensures keeps { KeepsPrinted (printed self.old) (printed self.new) }
        ensures all { OnOk result (IsTrue (printed self.old).told →
            (printed self.new).bytes ≡ (printed self.old).bytes ++ bytes.now) }
        ensures part { OnErr result (IsTrue (printed self.old).told →
            AddsPart bytes.now (printed self.old).bytes (printed self.new).bytes) }
        ensures cause { OnErr result (Rose (printed self.old).faults (printed self.new).faults) }
        ensures steady { OnOk result ((printed self.new).faults ≡ (printed self.old).faults) };
}
