ghost use Rattle.std.specs.Prelude.{◌≡◌, ◌++◌, ℕ, List, OnOk};

use row_core::{Bytes, NoMemory};

/// What can be written as a part of an event.
pub trait Writable {
    ghost spell: { Self → List ℕ };

    /// Its lists are so short that a number of four bytes counts them.
    ghost short: { Self → Type 0 };

    /// What has a spelling.
    ghost fits: { Self → Type 0 };

    /// Writes it at the end.
    fn put(&self, bytes: &mut Bytes) -> Result<(), NoMemory>
        requires { short self.now }
        ensures spelled { OnOk result (bytes.new ≡ bytes.old ++ spell self.now) }
        ensures fits { OnOk result (fits self.now) };
}
