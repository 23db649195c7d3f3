ghost use Rattle.std.specs.Prelude.{◌≡◌, ◌+◌, ◌<◌, ◌≤◌, length, MatchOption};
ghost use Rattle.event_log.specs.Blocks.{body_at, length_at};
ghost use Rattle.event_log.specs.Answers.{AnswersParse};

use crate::{Blocks, LogError};
use row_core::Bytes;
use std::alloc::Global;

/// The blocks from a first gate on, and the place of the closed gate. Each body is copied once.
pub fn parse(alloc: Global, log: &[u8]) -> Result<(Blocks, usize), LogError>
    ensures { AnswersParse log.now result }
{
    let mut blocks = Blocks::new(alloc);
    let mut end = 0;
    while end < log.len() {
        if log[end] == 0 {
            return Ok((blocks, end));
        }
        match block_body(&log[end + 1..]) {
            Some(body) => {
                blocks.push(Bytes::from_slice(alloc, body)?)?;
                end += 9 + body.len();
            }
            None => return Err(broken(blocks)),
        }
    }
    Err(broken(blocks))
}

// The block behind these is broken.
fn broken(before: Blocks) -> LogError
    ensures { result ≡ LogError.BadBlock (length before) before }
{
    LogError::BadBlock {
        block: before.as_slice().len() as u64,
        before,
    }
}

// The body behind an open gate, where it and the next gate are there.
fn block_body(after: &[u8]) -> Option<&[u8]>
    ensures { MatchOption result
        (length after.now ≤ 8 + length_at after.now)
        (λ body. (body.now ≡ body_at after.now) × (8 + length_at after.now < length after.now)) }
{
    let (head, rest) = after.split_first_chunk::<8>()?;
    let len = u64::from_be_bytes(*head) as usize;
    if len < rest.len() {
        Some(&rest[..len])
    } else {
        None
    }
}
