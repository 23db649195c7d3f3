ghost use Rattle.std.specs.Prelude.{◌≡◌, ◌/◌, length, map, take, IfOk};

use row_core::{Bytes, NoMemory};
use std::alloc::Global;

/// Bytes that were written at a place of the log.
#[derive(Debug, Drop)]
pub struct Write {
    pub at: u64,
    pub bytes: Bytes,
}

impl Write {
    pub fn copy(&self, alloc: Global) -> Result<Write, NoMemory>
        ensures { IfOk result (λ made. made ≡ self.now) }
    {
        Ok(Write {
            at: self.at,
            bytes: Bytes::from_slice(alloc, self.bytes.as_slice())?,
        })
    }

    /// As many bytes 255.
    pub fn filled(&self, alloc: Global) -> Result<Write, NoMemory>
        ensures { IfOk result (λ made. made ≡ record {
          at = self.now.at;
          bytes = map (λ _. 255) self.now.bytes;
        }) }
    {
        let mut bytes = Bytes::new(alloc);
        for _ in self.bytes.as_slice() {
            bytes.push(255)?;
        }
        Ok(Write { at: self.at, bytes })
    }

    /// The first half of the bytes.
    pub fn halved(&self, alloc: Global) -> Result<Write, NoMemory>
        ensures { IfOk result (λ made. made ≡ record {
          at = self.now.at;
          bytes = take (length self.now.bytes / 2) self.now.bytes;
        }) }
    {
        let bytes = self.bytes.as_slice();
        Ok(Write {
            at: self.at,
            bytes: Bytes::from_slice(alloc, &bytes[..bytes.len() / 2])?,
        })
    }
}
