ghost use Rattle.std.specs.Prelude.{ℕ, List, MatchOption, IfOk};
ghost use Rattle.row_core.specs.Decoding.{Begins, NoneBegins};
ghost use Rattle.event_codec.specs.Reading.{IsPrefixFree};

use row_core::NoMemory;
use std::alloc::Global;

/// What can be read as a part of an event.
pub trait Readable: Sized + Drop {
    ghost spell: { Self → List ℕ };

    /// What has a spelling.
    ghost fits: { Self → Type 0 };

    /// The one that the bytes begin with, and the bytes after it; none where they begin with no
    /// spelling.
    fn read(alloc: Global, bytes: &[u8]) -> Result<Option<(Self, &[u8])>, NoMemory>
        ensures { IfOk result (λ read. MatchOption read (NoneBegins spell fits bytes.now)
            (λ x. Begins spell fits bytes.now x.0 x.1.now)) };

    ghost free: { IsPrefixFree spell fits };
}
