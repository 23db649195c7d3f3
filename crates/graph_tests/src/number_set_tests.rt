use number_set::{NumberSet, Pair, PairSet};
use std::test::Fail;

#[test]
fn finds_the_least_number(rt: HostRuntime) -> Result<(), Fail> {
    let mut numbers = NumberSet::new(rt.alloc(), 5)?;
    assert_eq!(rt; numbers.first(), None);
    numbers.set(4, true);
    numbers.set(1, true);
    assert_eq!(rt; numbers.first(), Some(1));
    numbers.set(1, false);
    assert_eq!(rt; numbers.first(), Some(4));
    assert!(rt; numbers.has(4) && !numbers.has(1));
    Ok(())
}

#[test]
fn lists_its_numbers(rt: HostRuntime) -> Result<(), Fail> {
    let mut numbers = NumberSet::full(rt.alloc(), 4)?;
    numbers.set(2, false);
    let listed = numbers.members(rt.alloc())?;
    assert_eq!(rt; listed.as_slice(), [0, 1, 3].as_slice());
    Ok(())
}

#[test]
fn finds_the_least_pair(rt: HostRuntime) -> Result<(), Fail> {
    let mut pairs = PairSet::new(rt.alloc(), 3)?;
    assert_eq!(rt; pairs.first(), None);
    pairs.fill(rt.alloc(), 2, 2)?;
    pairs.fill(rt.alloc(), 0, 1)?;
    assert_eq!(rt; pairs.pairs(rt.alloc())?.len(), 3);
    pairs.set(0, 0, false);
    let least = Pair {
        group: 2,
        number: 0,
    };
    assert_eq!(rt; pairs.first(), Some(least));
    Ok(())
}
