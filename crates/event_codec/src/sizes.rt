ghost use Rattle.event_codec.specs.Spelling.{long, IsLong, counted, IsCounted, AreFit};
ghost use Rattle.event_codec.specs.Fronts.{counted_free, long_free, sizes_free};

use crate::reading::read_list;
use crate::writing::put_list;
use crate::{Readable, Writable};
use estate::{EdgeSizes, Sizes};
use graph_model::FileSizes;
use row_core::{Bytes, NoMemory};
use std::alloc::Global;

impl Writable for Sizes {
    ghost spell = { counted long };

    ghost short = { λ sizes. IsCounted sizes };

    ghost fits = { AreFit IsLong };

    fn put(&self, bytes: &mut Bytes) -> Result<(), NoMemory> {
        put_list(self.as_slice(), bytes)
    }
}

impl Readable for Sizes {
    ghost spell = { counted long };

    ghost fits = { AreFit IsLong };

    fn read(alloc: Global, bytes: &[u8]) -> Result<Option<(Self, &[u8])>, NoMemory> {
        match read_list(alloc, bytes)? {
            Some((items, rest)) => Ok(Some((Sizes::from_vec(items), rest))),
            None => Ok(None),
        }
    }

    ghost free = { counted_free long IsLong long_free };
}

impl Writable for FileSizes {
    ghost spell = { counted (counted long) };

    ghost short = { AreFit (λ sizes. IsCounted sizes) };

    ghost fits = { AreFit (AreFit IsLong) };

    fn put(&self, bytes: &mut Bytes) -> Result<(), NoMemory> {
        put_list(self.as_slice(), bytes)
    }
}

impl Readable for FileSizes {
    ghost spell = { counted (counted long) };

    ghost fits = { AreFit (AreFit IsLong) };

    fn read(alloc: Global, bytes: &[u8]) -> Result<Option<(Self, &[u8])>, NoMemory> {
        match read_list(alloc, bytes)? {
            Some((items, rest)) => Ok(Some((FileSizes::from_vec(items), rest))),
            None => Ok(None),
        }
    }

    ghost free = { sizes_free };
}

impl Writable for EdgeSizes {
    ghost spell = { counted (counted long) };

    ghost short = { AreFit (λ sizes. IsCounted sizes) };

    ghost fits = { AreFit (AreFit IsLong) };

    fn put(&self, bytes: &mut Bytes) -> Result<(), NoMemory> {
        put_list(self.as_slice(), bytes)
    }
}

impl Readable for EdgeSizes {
    ghost spell = { counted (counted long) };

    ghost fits = { AreFit (AreFit IsLong) };

    fn read(alloc: Global, bytes: &[u8]) -> Result<Option<(Self, &[u8])>, NoMemory> {
        match read_list(alloc, bytes)? {
            Some((items, rest)) => Ok(Some((EdgeSizes::from_vec(items), rest))),
            None => Ok(None),
        }
    }

    ghost free = { sizes_free };
}
