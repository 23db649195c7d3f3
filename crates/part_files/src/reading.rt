ghost use Rattle.std.specs.Prelude.{◌≡◌, IfOk};
ghost use Rattle.part_files.specs.Sources.{Told, bytes_from};

use crate::source::Source;
use row_core::Bytes;
use std::alloc::Global;
use std::io;

/// These bytes of a source. Past its end there are none to read, and memory is taken for no more than it
/// has.
pub fn bytes_at<S: Source>(alloc: Global, source: &S, at: u64, len: u64) -> io::Result<Bytes>
    ensures { IfOk result (λ found. Told (S.told source.now)
        (λ bytes. found ≡ bytes_from bytes at len)) }
{
    match at.checked_add(len) {
        Some(end) if end <= source.size()? => (),
        _ => return Err(io::Error::from(io::ErrorKind::UnexpectedEof)),
    }
    let mut found = vec![in alloc; 0u8; len as usize]?;
    source.fill(found.as_mut_slice(), at)?;
    Ok(Bytes::from_vec(found))
}
