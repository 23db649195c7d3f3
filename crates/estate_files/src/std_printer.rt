ghost use Rattle.std.specs.Prelude.{◌≡◌, false, []};

use estate::{PrintFailed, Printer};
use row_core::Bytes;
use std::io;
use std::io::Write;
use std::marker::Model;

/// Prints to standard output, at once. It doesn't tell what was printed: contracts see how often printing
/// has failed.
#[derive(Drop)]
pub struct StdPrinter<'a, R> {
    rt: &'a R,
    faults: u64,
}

impl<'a, R> Model for StdPrinter<'a, R> {
    ghost use Rattle.std.specs.Prelude.{ℕ};

    ghost Value = { ℕ };

    ghost view = { λ printer. printer.faults };
}

impl<'a, R> StdPrinter<'a, R> {
    pub fn new(rt: &'a R) -> Self
        ensures { result ≡ 0 }
    {
        StdPrinter { rt, faults: 0 }
    }
}

impl<'a, R: Print> Printer for StdPrinter<'a, R> {
    ghost printed = { λ faults. record { told = false; bytes = []; faults = faults } };

    fn print(&mut self, bytes: &Bytes) -> Result<(), PrintFailed> {
        match io::writer(self.rt).write_all(bytes.as_slice()) {
            Ok(()) => Ok(()),
            Err(_) => {
                self.faults = self.faults.saturating_add(1);
                Err(PrintFailed)
            }
        }
    }
}
