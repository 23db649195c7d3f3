ghost use Rattle.event_codec.specs.Spelling.{text_bytes, IsCounted};
ghost use Rattle.event_codec.specs.Fronts.{text_free};

use crate::{Readable, Writable};
use row_core::{Bytes, NoMemory};
use std::alloc::Global;

impl Writable for Bytes {
    ghost spell = { text_bytes };

    ghost short = { λ text. IsCounted text };

    ghost fits = { λ text. IsCounted text };

    fn put(&self, bytes: &mut Bytes) -> Result<(), NoMemory> {
        (self.len() as u32).put(bytes)?;
        bytes.extend(self.as_slice())
    }
}

impl Readable for Bytes {
    ghost spell = { text_bytes };

    ghost fits = { λ text. IsCounted text };

    // No memory is taken before all of its bytes are seen.
    fn read(alloc: Global, bytes: &[u8]) -> Result<Option<(Self, &[u8])>, NoMemory> {
        let Some((len, rest)) = u32::read(alloc, bytes)? else {
            return Ok(None);
        };
        let len = len as usize;
        if rest.len() < len {
            return Ok(None);
        }
        let (text, rest) = rest.split_at(len);
        Ok(Some((Bytes::from_slice(alloc, text)?, rest)))
    }

    ghost free = { text_free };
}
