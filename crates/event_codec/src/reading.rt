ghost use Rattle.std.specs.Prelude.{MatchOption, IfOk};
ghost use Rattle.std.specs.List.{flat_map};
ghost use Rattle.row_core.specs.Decoding.{Begins, NoneBegins};
ghost use Rattle.event_codec.specs.Spelling.{counted, AreFit};
ghost use Rattle.event_codec.specs.Reading.{AreMany};

use crate::Readable;
use row_core::NoMemory;
use std::alloc::Global;

/// The items behind their number.
pub fn read_list<T: Readable>(
    alloc: Global,
    bytes: &[u8],
) -> Result<Option<(Vec<T>, &[u8])>, NoMemory>
    ensures { IfOk result
        (λ read. MatchOption read (NoneBegins (counted T.spell) (AreFit T.fits) bytes.now)
        (λ x. Begins (counted T.spell) (AreFit T.fits) bytes.now x.0.items x.1.now)) }
{
    let Some((count, rest)) = u32::read(alloc, bytes)? else {
        return Ok(None);
    };
    read_items(alloc, count, rest)
}

// This many items that the bytes begin with. Room is taken as they are read, however many there are
// said to be.
fn read_items<T: Readable>(
    alloc: Global,
    count: u32,
    bytes: &[u8],
) -> Result<Option<(Vec<T>, &[u8])>, NoMemory>
    ensures { IfOk result
        (λ read. MatchOption read (NoneBegins (flat_map T.spell) (AreMany T.fits count) bytes.now)
        (λ x. Begins (flat_map T.spell) (AreMany T.fits count) bytes.now x.0.items x.1.now)) }
{
    let mut items = Vec::new(alloc);
    let mut rest = bytes;
    for _ in 0..count {
        let Some((item, after)) = T::read(alloc, rest)? else {
            return Ok(None);
        };
        items.push(item)?;
        rest = after;
    }
    Ok(Some((items, rest)))
}
