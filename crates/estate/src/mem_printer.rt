use crate::calls::Calls;
use crate::{Numbers, PrintFailed, Printer};
use row_core::{Bytes, NoMemory};
use std::alloc::Global;

/// A printer into memory. It counts its calls from 0.
#[derive(Debug, Drop)]
pub struct MemPrinter {
    alloc: Global,
    bytes: Bytes,
    calls: Calls,
    faults: u64,
}

impl MemPrinter {
    ghost use Rattle.std.specs.Prelude.{◌≡◌, [], true, IfOk};
    ghost use Rattle.estate.specs.Memory.{mem_printed};

    /// A call whose number is in `failing` fails, and prints nothing. So does one for which no
    /// memory is left.
    pub fn new(alloc: Global, failing: &Numbers) -> Result<MemPrinter, NoMemory>
        ensures told { IfOk result (λ made. (mem_printed made).told ≡ true) }
        ensures bytes { IfOk result (λ made. (mem_printed made).bytes ≡ []) }
        ensures faults { IfOk result (λ made. (mem_printed made).faults ≡ 0) }
        ensures calls { IfOk result (λ made. made.calls.count ≡ 0) }
        ensures failing { IfOk result (λ made. made.calls.failing.items ≡ failing.now) }
    {
        Ok(MemPrinter {
            alloc,
            bytes: Bytes::new(alloc),
            calls: Calls::new(alloc, failing)?,
            faults: 0,
        })
    }

    /// A copy of what was printed.
    pub fn printed(&self) -> Result<Bytes, NoMemory>
        ensures { IfOk result (λ bytes. bytes ≡ (mem_printed self.now).bytes) }
    {
        Bytes::from_slice(self.alloc, self.bytes.as_slice())
    }
}

impl Printer for MemPrinter {
    ghost use Rattle.std.specs.Prelude.{◌≡◌, ◌++◌, IsTrue, OnOk, OnErr};
    ghost use Rattle.estate.specs.Calls.{CountsOne, FailsNext};
    ghost use Rattle.estate.specs.Changes.{Rose};
    ghost use Rattle.estate.specs.Printed.{KeepsPrinted, AddsPart};
    ghost use Rattle.estate.specs.Memory.{mem_printed};

    ghost printed = { mem_printed };

    // It says more than the trait asks: a call that is listed fails, and one that fails prints
    // nothing.
    fn print(&mut self, bytes: &Bytes) -> Result<(), PrintFailed>
        ensures keeps { KeepsPrinted (mem_printed self.old) (mem_printed self.new) }
        ensures all { OnOk result (IsTrue (mem_printed self.old).told →
            (mem_printed self.new).bytes ≡ (mem_printed self.old).bytes ++ bytes.now) }
        ensures part { OnErr result (IsTrue (mem_printed self.old).told →
            AddsPart bytes.now (mem_printed self.old).bytes (mem_printed self.new).bytes) }
        ensures cause { OnErr result
            (Rose (mem_printed self.old).faults (mem_printed self.new).faults) }
        ensures steady { OnOk result ((mem_printed self.new).faults
            ≡ (mem_printed self.old).faults) }
        ensures counted { CountsOne self.old.calls self.new.calls }
        ensures fails { OnOk result (¬ (FailsNext self.old.calls)) }
        ensures nothing { OnErr result ((mem_printed self.new).bytes
            ≡ (mem_printed self.old).bytes) }
    {
        if self.calls.begin() || self.bytes.extend(bytes.as_slice()).is_err() {
            self.faults = self.faults.saturating_add(1);
            return Err(PrintFailed);
        }
        Ok(())
    }
}
