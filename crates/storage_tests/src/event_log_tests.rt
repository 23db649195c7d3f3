use estate::{Estate, MemEstate};
use event_log::{Blocks, LogError, start, view};
use row_core::Bytes;
use std::alloc::Global;
use std::test::Fail;
use test_estates::{failing_at, whole_log};

// A block of the body 01 00 00 00 01 behind a closed gate, and the next closed gate.
const STAGED: [u8; 15] = [0, 0, 0, 0, 0, 0, 0, 0, 5, 1, 0, 0, 0, 1, 0];

const BODY: [u8; 5] = [1, 0, 0, 0, 1];

// Starts the log, adds the block, and gives those that it had.
fn add<E: Estate>(alloc: Global, estate: &mut E) -> Result<Blocks, LogError> {
    let (mut log, blocks) = start(alloc, estate)?;
    let body = Bytes::from_slice(alloc, &BODY)?;
    log.flush(alloc, estate, &body)?;
    Ok(blocks)
}

fn are(blocks: &Blocks, want: &[&[u8]]) -> bool {
    let blocks = blocks.as_slice();
    blocks.len() == want.len()
        && blocks
            .iter()
            .zip(want)
            .all(|(block, body)| block.as_slice() == *body)
}

// The log that a crash at the exit of the first sync of the flush leaves.
fn staged(estate: &MemEstate) -> Result<MemEstate, Fail> {
    if estate.moments() != 17 {
        return Err("two moments for each of the eight calls, and the beginning".into());
    }
    Ok(estate.crash(12, 0)?)
}

#[test]
fn a_block_counts_once_its_gate_is_open(rt: HostRuntime) -> Result<(), Fail> {
    let mut estate = failing_at(rt.alloc(), &[])?;
    add(rt.alloc(), &mut estate)?;
    let mut left = staged(&estate)?;
    assert_eq!(rt; whole_log(&mut left)?.as_slice(), STAGED.as_slice());
    assert!(rt; are(&view(rt.alloc(), &mut left)?, &[]));
    assert!(rt; are(&view(rt.alloc(), &mut estate)?, &[&BODY]));
    Ok(())
}

#[test]
fn each_call_failing_in_turn(rt: HostRuntime) -> Result<(), Fail> {
    let alloc = rt.alloc();
    let all: [&[u8]; 1] = [&BODY];
    for call in 0u64..8 {
        let mut estate = failing_at(alloc, &[call])?;
        assert!(rt;
            matches!(add(alloc, &mut estate), Err(LogError::Fault)),
            "at {call}"
        );
        // a call that failed had no effect, so only a block that was not synced is found
        let had = add(alloc, &mut estate)?;
        assert!(rt; are(&had, &all[..usize::from(call == 7)]), "at {call}");
    }
    Ok(())
}
