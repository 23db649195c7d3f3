ghost use Rattle.std.specs.Prelude.{◌≤◌, length};

use crate::tasks::index_of;
use reader_index::{Read, ReaderIndex};
use std::test::Fail;

// Two producers, and three readers of them, one of which reads one producer twice.
const FIVE: &[&[&[usize]]] = &[&[&[], &[]], &[&[0], &[0, 1], &[1, 1]]];

// How many of its reads each of the readers waits for.
fn missing(index: &ReaderIndex) -> [usize; 3]
    requires { 5 ≤ length index.now.done }
{
    [index.missing(2), index.missing(3), index.missing(4)]
}

#[test]
fn counts_what_is_missing(rt: HostRuntime) -> Result<(), Fail> {
    let mut index = index_of(rt.alloc(), FIVE)?;
    assert!(rt; index.count() == 5 && !index.is_done(1));
    assert_eq!(rt; missing(&index), [1, 2, 2]);
    index.finish(1);
    assert_eq!(rt; missing(&index), [1, 1, 0]);
    assert_eq!(rt; index.undone(), 4);
    index.reopen(1);
    assert_eq!(rt; missing(&index), [1, 2, 2]);
    Ok(())
}

#[test]
fn reads_come_in_the_order_of_the_lists(rt: HostRuntime) -> Result<(), Fail> {
    let index = index_of(rt.alloc(), FIVE)?;
    assert_eq!(rt; index.count(), 5);
    let reads = [0, 1].map(|producer| Read {
        reader: 3,
        producer,
    });
    assert_eq!(rt; index.reads_of(3), reads.as_slice());
    Ok(())
}
