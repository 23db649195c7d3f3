ghost use Rattle.std.specs.Prelude.{⊤};
ghost use Rattle.event_codec.specs.Spelling.{name_bytes, NameFits, sub_bytes, SubFits, rect_bytes, RectFits};
ghost use Rattle.event_codec.specs.Fronts.{name_free, sub_free, rect_free};

use crate::{Readable, Writable};
use estate::PartName;
use graph_model::Sub;
use rect_cover::Rect;
use row_core::{Bytes, NoMemory};
use std::alloc::Global;

type TwoWords = (u32, u32);

type FourWords = ((TwoWords, u32), u32);

impl Writable for PartName {
    ghost spell = { name_bytes };

    ghost short = { λ name. ⊤ };

    ghost fits = { NameFits };

    fn put(&self, bytes: &mut Bytes) -> Result<(), NoMemory> {
        self.vertex.put(bytes)?;
        self.subtask.put(bytes)?;
        self.epoch.put(bytes)?;
        self.attempt.put(bytes)
    }
}

impl Readable for PartName {
    ghost spell = { name_bytes };

    ghost fits = { NameFits };

    fn read(alloc: Global, bytes: &[u8]) -> Result<Option<(Self, &[u8])>, NoMemory> {
        match FourWords::read(alloc, bytes)? {
            Some(((((vertex, subtask), epoch), attempt), rest)) => {
                let name = PartName {
                    vertex,
                    subtask,
                    epoch,
                    attempt,
                };
                Ok(Some((name, rest)))
            }
            None => Ok(None),
        }
    }

    ghost free = { name_free };
}

impl Writable for Sub {
    ghost spell = { sub_bytes };

    ghost short = { λ sub. ⊤ };

    ghost fits = { SubFits };

    fn put(&self, bytes: &mut Bytes) -> Result<(), NoMemory> {
        self.vertex.put(bytes)?;
        self.subtask.put(bytes)
    }
}

impl Readable for Sub {
    ghost spell = { sub_bytes };

    ghost fits = { SubFits };

    fn read(alloc: Global, bytes: &[u8]) -> Result<Option<(Self, &[u8])>, NoMemory> {
        match TwoWords::read(alloc, bytes)? {
            Some(((vertex, subtask), rest)) => Ok(Some((Sub { vertex, subtask }, rest))),
            None => Ok(None),
        }
    }

    ghost free = { sub_free };
}

impl Writable for Rect {
    ghost spell = { rect_bytes };

    ghost short = { λ rect. ⊤ };

    ghost fits = { RectFits };

    fn put(&self, bytes: &mut Bytes) -> Result<(), NoMemory> {
        self.p0.put(bytes)?;
        self.p1.put(bytes)?;
        self.s0.put(bytes)?;
        self.s1.put(bytes)
    }
}

impl Readable for Rect {
    ghost spell = { rect_bytes };

    ghost fits = { RectFits };

    fn read(alloc: Global, bytes: &[u8]) -> Result<Option<(Self, &[u8])>, NoMemory> {
        match FourWords::read(alloc, bytes)? {
            Some(((((p0, p1), s0), s1), rest)) => Ok(Some((Rect { p0, p1, s0, s1 }, rest))),
            None => Ok(None),
        }
    }

    ghost free = { rect_free };
}
