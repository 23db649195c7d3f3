ghost use Rattle.std.specs.Prelude.{◌≡◌, ℕ, List, Option, None, length, IfOk, OnOk};
ghost use Rattle.part_files.specs.Sources.{Told, bytes_from};

use std::fs::File;
use std::io;
use std::os::unix::fs::FileExt;

/// Bytes that are read by their places, as those of a file.
pub trait Source {
    /// The bytes, where they are told.
    ghost told: { Self → Option (List ℕ) };

    /// How many bytes there are.
    fn size(&self) -> io::Result<u64>
        ensures { IfOk result (λ size. Told (told self.now) (λ bytes. size ≡ length bytes)) };

    /// Fills the buffer with the bytes from a place on. An error where there are too few.
    fn fill(&self, buffer: &mut [u8], at: u64) -> io::Result<()>
        ensures { OnOk result (Told (told self.now)
            (λ bytes. buffer.new ≡ bytes_from bytes at (length buffer.old))) };
}

impl Source for File {
    ghost told = { λ _. None };

    fn size(&self) -> io::Result<u64> {
        Ok(self.metadata()?.len())
    }

    fn fill(&self, buffer: &mut [u8], at: u64) -> io::Result<()> {
        self.read_exact_at(buffer, at)
    }
}
