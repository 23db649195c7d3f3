ghost use Rattle.event_codec.specs.Reading.{both, BothFit};
ghost use Rattle.event_codec.specs.Fronts.{both_free};

use crate::Readable;
use row_core::NoMemory;
use std::alloc::Global;

impl<A: Readable, B: Readable> Readable for (A, B) {
    ghost spell = { both A.spell B.spell };

    ghost fits = { BothFit A.fits B.fits };

    fn read(alloc: Global, bytes: &[u8]) -> Result<Option<(Self, &[u8])>, NoMemory> {
        let Some((first, rest)) = A::read(alloc, bytes)? else {
            return Ok(None);
        };
        let Some((second, rest)) = B::read(alloc, rest)? else {
            return Ok(None);
        };
        Ok(Some(((first, second), rest)))
    }

    ghost free = { both_free A.spell A.fits B.spell B.fits A.free B.free };
}
