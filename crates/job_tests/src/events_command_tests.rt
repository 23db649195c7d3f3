use crate::batch_commands_tests::{COMMITTED, Entry, Failing, JOB, NONE, ORDERS, called};
use estate::{Estate, MemEstate};
use row_core::{Bytes, NoMemory};
use std::alloc::Global;
use std::test::Fail;
use test_estates::failing_at;

// An estate whose log has these bytes, and of which these calls fail; the bytes are written by the
// first.
fn with_log(alloc: Global, log: &Bytes, failing: &[u64]) -> Result<MemEstate, Fail> {
    let mut estate = failing_at(alloc, failing)?;
    estate.log_write(0, log)?;
    Ok(estate)
}

fn joined(alloc: Global, pieces: &[&[u8]]) -> Result<Bytes, NoMemory> {
    let mut bytes = Bytes::new(alloc);
    for piece in pieces {
        bytes.extend(piece)?;
    }
    Ok(bytes)
}

// A gate that is open, a length, a body, and the next gate, which is closed.
fn one_block(alloc: Global, body: &Bytes) -> Result<Bytes, NoMemory> {
    let len = (body.len() as u64).to_be_bytes();
    joined(alloc, &[&[1], &len, body.as_slice(), &[0]])
}

// The events of the job over its one file of 29 bytes: an epoch is opened and the job is started,
// and then it is made, decided, done and ended.
const OPENED: &[u8] = &[1, 0, 0, 0, 1];

const FILES: &[u8] = &[0, 0, 0, 1, 0, 0, 0, 1, 0, 0, 0, 0, 0, 0, 0, 29];

const MADE: &[u8] = &[
    3, 0, 0, 0, 0, 0, 0, 0, 3, 0, 0, 0, 0, 0, 0, 0, 1, 0, 0, 0, 2,
];

const DECIDED: &[u8] = &[
    5, 0, 0, 0, 0, 0, 0, 0, 1, 0, 0, 0, 1, 0, 0, 0, 1, 0, 0, 0, 0, 0, 0, 0, 1, 0, 0, 0, 0, 0, 0, 0,
    1,
];

const DONE: &[u8] = &[
    6, 0, 0, 0, 0, 0, 0, 0, 0, 0, 0, 0, 1, 0, 0, 0, 0, 0, 0, 0, 0, 0, 0, 0, 1, 0, 0, 0, 1, 0, 0, 0,
    0, 0, 0, 0, 58,
];

const ENDED: &[u8] = &[9, 0];

fn finished_log(alloc: Global) -> Result<Bytes, NoMemory> {
    let len = (JOB.len() as u32).to_be_bytes();
    let start: &[&[u8]] = &[OPENED, &[2], &len, JOB.as_bytes(), FILES];
    let rest: &[&[u8]] = &[MADE, DECIDED, DONE, ENDED];
    let body = joined(
        alloc,
        &[
            joined(alloc, start)?.as_slice(),
            joined(alloc, rest)?.as_slice(),
        ],
    )?;
    one_block(alloc, &body)
}

const EVENTS: &str = "opened 1
started files=1 bytes=29
made 0 nodes=0,1,2
decided 0 subtasks=1
done 0.0.1.0 inputs=0 bytes=58
ended finished
";

// What the commands show of the job and of its log.
const SHOWN: [(&str, &str); 4] = [
    ("check", "ok nodes=3 sinks=1\n"),
    ("plan", "vertex 0 nodes=0,1,2 in=files out=sink\n"),
    ("reference", COMMITTED),
    ("events", EVENTS),
];

#[test]
fn what_is_shown_of_one_job(rt: HostRuntime) -> Result<(), Fail> {
    let alloc = rt.alloc();
    let mut estate = with_log(alloc, &finished_log(alloc)?, &[])?;
    for (word, text) in &SHOWN {
        let (status, printed) = called(
            alloc,
            Entry::Serve,
            &mut estate,
            (*word, JOB, ORDERS, NONE),
        )?;
        let is_so = status == 0 && printed.as_slice() == text.as_bytes();
        assert!(rt; is_so, "{word}");
    }
    Ok(())
}

// The first call of the inputs fails.
const NO_INPUTS: Failing = (&[], &[0], &[]);

// The bytes of logs, and what `events` answers over them. No job is read.
const LOGS: [(&[u8], u8, &str); 12] = [
    // fresh logs, and closed gates
    (&[], 0, ""),
    (&[9], 0, ""),
    (&[0], 0, ""),
    (&[0, 1, 2, 3], 0, ""),
    // one event, and no event in a block
    (
        &[1, 0, 0, 0, 0, 0, 0, 0, 5, 1, 0, 0, 0, 7, 0],
        0,
        "opened 7\n",
    ),
    (&[1, 0, 0, 0, 0, 0, 0, 0, 0, 0], 0, ""),
    // an event without all its bytes, and blocks that are cut
    (
        &[1, 0, 0, 0, 0, 0, 0, 0, 1, 9, 0],
        9,
        "bad-log block=0 event=0\n",
    ),
    (&[1, 0, 0, 0, 0, 0, 0, 0, 5], 9, "bad-log block=0 event=0\n"),
    (
        &[1, 255, 255, 255, 255, 255, 255, 255, 255],
        9,
        "bad-log block=0 event=0\n",
    ),
    // an epoch 0, and an epoch that does not grow
    (
        &[1, 0, 0, 0, 0, 0, 0, 0, 5, 1, 0, 0, 0, 0, 0],
        9,
        "bad-log block=0 event=0\n",
    ),
    (
        &[1, 0, 0, 0, 0, 0, 0, 0, 10, 1, 0, 0, 0, 1, 1, 0, 0, 0, 1, 0],
        9,
        "bad-log block=0 event=1\n",
    ),
    // an event that is not legal before a block that is cut
    (
        &[
            1, 0, 0, 0, 0, 0, 0, 0, 10, 1, 0, 0, 0, 2, 1, 0, 0, 0, 1, 1, 0, 0, 0, 0, 0, 0, 0, 5,
        ],
        9,
        "bad-log block=0 event=1\n",
    ),
];

#[test]
fn what_is_shown_of_logs(rt: HostRuntime) -> Result<(), Fail> {
    let alloc = rt.alloc();
    for (log, wanted, text) in &LOGS {
        let mut estate = with_log(alloc, &Bytes::from_slice(alloc, log)?, &[])?;
        let given = ("events", "", ORDERS, NO_INPUTS);
        let (status, printed) = called(alloc, Entry::Serve, &mut estate, given)?;
        let is_so = status == *wanted && printed.as_slice() == text.as_bytes();
        assert!(rt; is_so, "{log:?}");
    }
    Ok(())
}

// The log's length is asked for, and then its bytes.
#[test]
fn a_log_that_cannot_be_read(rt: HostRuntime) -> Result<(), Fail> {
    let alloc = rt.alloc();
    let log = finished_log(alloc)?;
    for call in 1u64..3 {
        let mut estate = with_log(alloc, &log, &[call])?;
        let given = ("events", JOB, ORDERS, NONE);
        let (status, printed) = called(alloc, Entry::Serve, &mut estate, given)?;
        let is_so = status == 4 && printed.as_slice() == b"log-fault\n".as_slice();
        assert!(rt; is_so, "at {call}");
    }
    Ok(())
}
