ghost use Rattle.std.specs.Prelude.{⊤};
ghost use Rattle.event_codec.specs.Spelling.{word, long, IsWord, IsLong};
ghost use Rattle.event_codec.specs.Fronts.{word_free, long_free};

use crate::{Readable, Writable};
use byteorder::{BigEndian, ByteOrder};
use row_core::{Bytes, NoMemory, read_u32, read_u64};
use std::alloc::Global;

impl Writable for u32 {
    ghost spell = { word };

    ghost short = { λ n. ⊤ };

    ghost fits = { IsWord };

    #[tactic(auto, unfolding(crate::specs::Spelling::word))]
    fn put(&self, bytes: &mut Bytes) -> Result<(), NoMemory> {
        let mut four = [0; 4];
        BigEndian::write_u32(&mut four, *self);
        bytes.extend(&four)
    }
}

impl Writable for u64 {
    ghost spell = { long };

    ghost short = { λ n. ⊤ };

    ghost fits = { IsLong };

    #[tactic(auto, unfolding(crate::specs::Spelling::long))]
    fn put(&self, bytes: &mut Bytes) -> Result<(), NoMemory> {
        let mut eight = [0; 8];
        BigEndian::write_u64(&mut eight, *self);
        bytes.extend(&eight)
    }
}

impl Readable for u32 {
    ghost spell = { word };

    ghost fits = { IsWord };

    #[tactic(auto, unfolding(crate::specs::Spelling::word))]
    fn read(alloc: Global, bytes: &[u8]) -> Result<Option<(Self, &[u8])>, NoMemory> {
        Ok(read_u32(bytes))
    }

    ghost free = { word_free };
}

impl Readable for u64 {
    ghost spell = { long };

    ghost fits = { IsLong };

    #[tactic(auto, unfolding(crate::specs::Spelling::long))]
    fn read(alloc: Global, bytes: &[u8]) -> Result<Option<(Self, &[u8])>, NoMemory> {
        Ok(read_u64(bytes))
    }

    ghost free = { long_free };
}
