use event_codec::{EventError, decode, encode};
use event_text::event_lines;
use row_core::{Bytes, NoMemory};
use std::alloc::{AllocError, Global};
use std::test::Fail;

// Each event's bytes, written by hand, and its line.
const EVENTS: [(&[u8], &str); 11] = [
    (&[1, 0, 0, 1, 2], "opened 258\n"),
    (
        &[
            2, 0, 0, 0, 2, b'{', b'}', 0, 0, 0, 2, 0, 0, 0, 2, 0, 0, 0, 0, 0, 0, 1, 0, 0, 0, 0, 0,
            0, 0, 0, 7, 0, 0, 0, 0,
        ],
        "started files=2 bytes=263\n",
    ),
    (
        &[3, 0, 0, 0, 4, 0, 0, 0, 2, 0, 0, 0, 9, 0, 0, 0, 10],
        "made 4 nodes=9,10\n",
    ),
    (&[4, 0, 0, 0, 6, 0], "widened 6 left\n"),
    (&[4, 0, 0, 0, 6, 1], "widened 6 right\n"),
    (
        &[
            5, 0, 0, 0, 1, 0, 0, 0, 1, 0, 0, 0, 1, 0, 0, 0, 1, 0, 0, 0, 0, 0, 0, 0, 2, 0, 0, 0, 3,
            0, 0, 0, 5,
        ],
        "decided 1 subtasks=1\n",
    ),
    (
        &[
            6, 0, 0, 0, 1, 0, 0, 0, 2, 0, 0, 0, 3, 0, 0, 0, 4, 0, 0, 0, 1, 0, 0, 0, 5, 0, 0, 0, 6,
            0, 0, 0, 7, 0, 0, 0, 8, 0, 0, 0, 1, 0, 0, 0, 1, 0, 0, 0, 0, 0, 0, 0, 9,
        ],
        "done 1.2.3.4 inputs=1 bytes=9\n",
    ),
    (
        &[
            7, 0, 0, 0, 1, 0, 0, 0, 1, 0, 0, 0, 2, 0, 0, 0, 3, 0, 0, 0, 4, 0, 0, 0, 2, 0, 0, 0, 1,
            0, 0, 0, 2, 0, 0, 0, 5, 0, 0, 0, 0,
        ],
        "reset gone=1 subtasks=1.2,5.0\n",
    ),
    (
        &[
            8, 0, 0, 0, 0, 1, 0, 0, 0, 2, 0, 0, 0, 3, 0, 0, 0, 4, 0, 0, 0, 17,
        ],
        "trouble gate 1.2.3.4 code=17\n",
    ),
    (
        &[8, 1, 0, 0, 0, 1, 0, 0, 0, 2, 0, 0, 0, 3, 0, 0, 0, 4],
        "trouble lost 1.2.3.4\n",
    ),
    (&[9, 1], "ended failed\n"),
];

// Bytes of no event, or that begin with one and have more behind it, and the place of the fault.
const FAULTS: [(&[u8], u64); 9] = [
    (&[0], 0),
    (&[10, 0, 0, 0, 1], 0),
    (&[9, 2], 0),
    (&[8, 2], 0),
    (&[4, 0, 0, 0, 6, 2], 0),
    (&[9, 0, 0], 1),
    (&[2, 0xff, 0xff, 0xff, 0xff, b'{'], 0),
    (&[1, 0, 0, 0, 1, 3, 0, 0, 0, 0, 0xff, 0xff, 0xff, 0xff], 1),
    (&[1, 0, 0, 0, 1, 9, 0, 1], 2),
];

// The bytes of all events, one after another.
fn all_bytes(alloc: Global) -> Result<Bytes, NoMemory> {
    let mut block = Bytes::new(alloc);
    for (bytes, _) in &EVENTS {
        block.extend(bytes)?;
    }
    Ok(block)
}

// The number of the event that has the byte at this place, and whether it begins there.
fn event_at(place: usize) -> (u64, bool) {
    let mut left = place;
    for (number, (bytes, _)) in EVENTS.iter().enumerate() {
        if left < bytes.len() {
            return (number as u64, left == 0);
        }
        left -= bytes.len();
    }
    (EVENTS.len() as u64, true)
}

// The number of the first event at fault; none where the bytes are events.
fn fault(alloc: Global, bytes: &[u8]) -> Result<Option<u64>, NoMemory> {
    match decode(alloc, &Bytes::from_slice(alloc, bytes)?) {
        Ok(_) => Ok(None),
        Err(EventError::Bad { at, .. }) => Ok(Some(at)),
        Err(EventError::NoMemory) => Err(AllocError),
    }
}

#[test]
fn each_event_by_hand(rt: HostRuntime) -> Result<(), Fail> {
    let alloc = rt.alloc();
    for (bytes, line) in &EVENTS {
        let events = decode(alloc, &Bytes::from_slice(alloc, bytes)?)?;
        let block = encode(alloc, &events)?;
        let lines = event_lines(alloc, &events)?;
        let same = block.as_slice() == *bytes && lines.as_slice() == line.as_bytes();
        assert!(rt; same, "{line}");
    }
    Ok(())
}

#[test]
fn the_first_fault(rt: HostRuntime) -> Result<(), Fail> {
    for (bytes, place) in &FAULTS {
        assert_eq!(rt; fault(rt.alloc(), bytes)?, Some(*place));
    }
    Ok(())
}

#[test]
fn each_cut(rt: HostRuntime) -> Result<(), Fail> {
    let block = all_bytes(rt.alloc())?;
    let bytes = block.as_slice();
    for place in 0..bytes.len() {
        let (number, begins) = event_at(place);
        let wanted = if begins { None } else { Some(number) };
        assert_eq!(rt; fault(rt.alloc(), &bytes[..place])?, wanted);
    }
    Ok(())
}

#[test]
fn each_byte_changed(rt: HostRuntime) -> Result<(), Fail> {
    let block = all_bytes(rt.alloc())?;
    for place in 0..block.len() {
        let mut bytes = block.as_slice().to_vec(rt.alloc())?;
        bytes[place] ^= 0xff;
        let at = fault(rt.alloc(), bytes.as_slice())?.unwrap_or(u64::MAX);
        assert!(rt; event_at(place).0 <= at, "changed at {place}");
    }
    Ok(())
}
