ghost use Rattle.std.specs.Prelude.{◌≡◌, ℕ};
ghost use Rattle.estate.specs.declared.part_name.PartName.{PartName as Name};

use crate::PartName;

/// Why an attempt was not let in. Its code and its name are its own, and never change.
pub trait GateFault: Send {
    ghost code_of: { Self → ℕ };

    ghost name_of: { Self → Name };

    fn code(&self) -> u32
        ensures { result ≡ code_of self.now };

    /// The attempt that was not let in.
    fn name(&self) -> PartName
        ensures { result ≡ name_of self.now };
}
