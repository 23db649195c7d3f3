ghost use Rattle.event_codec.specs.Spelling.{rect_bytes, RectFits, counted, IsCounted, AreFit};
ghost use Rattle.event_codec.specs.Fronts.{counted_free, rect_free, subtask_free, assignment_free};

use crate::reading::read_list;
use crate::writing::put_list;
use crate::{Readable, Writable};
use rect_cover::{Assignment, Rects, Subtask};
use row_core::{Bytes, NoMemory};
use std::alloc::Global;

impl Writable for Rects {
    ghost spell = { counted rect_bytes };

    ghost short = { λ rects. IsCounted rects };

    ghost fits = { AreFit RectFits };

    fn put(&self, bytes: &mut Bytes) -> Result<(), NoMemory> {
        put_list(self.as_slice(), bytes)
    }
}

impl Readable for Rects {
    ghost spell = { counted rect_bytes };

    ghost fits = { AreFit RectFits };

    fn read(alloc: Global, bytes: &[u8]) -> Result<Option<(Self, &[u8])>, NoMemory> {
        match read_list(alloc, bytes)? {
            Some((items, rest)) => Ok(Some((Rects::from_vec(items), rest))),
            None => Ok(None),
        }
    }

    ghost free = { counted_free rect_bytes RectFits rect_free };
}

impl Writable for Subtask {
    ghost spell = { counted (counted rect_bytes) };

    ghost short = { AreFit (λ rects. IsCounted rects) };

    ghost fits = { AreFit (AreFit RectFits) };

    fn put(&self, bytes: &mut Bytes) -> Result<(), NoMemory> {
        put_list(self.as_slice(), bytes)
    }
}

impl Readable for Subtask {
    ghost spell = { counted (counted rect_bytes) };

    ghost fits = { AreFit (AreFit RectFits) };

    fn read(alloc: Global, bytes: &[u8]) -> Result<Option<(Self, &[u8])>, NoMemory> {
        match read_list(alloc, bytes)? {
            Some((items, rest)) => Ok(Some((Subtask::from_vec(items), rest))),
            None => Ok(None),
        }
    }

    ghost free = { subtask_free };
}

impl Writable for Assignment {
    ghost spell = { counted (counted (counted rect_bytes)) };

    ghost short = { AreFit (AreFit (λ rects. IsCounted rects)) };

    ghost fits = { AreFit (AreFit (AreFit RectFits)) };

    fn put(&self, bytes: &mut Bytes) -> Result<(), NoMemory> {
        put_list(self.as_slice(), bytes)
    }
}

impl Readable for Assignment {
    ghost spell = { counted (counted (counted rect_bytes)) };

    ghost fits = { AreFit (AreFit (AreFit RectFits)) };

    fn read(alloc: Global, bytes: &[u8]) -> Result<Option<(Self, &[u8])>, NoMemory> {
        match read_list(alloc, bytes)? {
            Some((items, rest)) => Ok(Some((Assignment::from_vec(items), rest))),
            None => Ok(None),
        }
    }

    ghost free = { assignment_free };
}
