use attempt_names::AttemptNames;
use std::test::Fail;

// The attempts of a subtask are numbered in each epoch from 0 on.
#[test]
fn numbers_attempts_of_each_epoch(rt: HostRuntime) -> Result<(), Fail> {
    let mut names = AttemptNames::new(rt.alloc());
    let first = names.deploy(0, 3, 1)?;
    let second = names.deploy(0, 3, 1)?;
    let third = names.deploy(0, 3, 2)?;
    let numbers = [first, second, third].map(|name| name.attempt);
    assert_eq!(rt; numbers, [0, 1, 0]);
    names.drop_name(first);
    assert!(rt; names.is_running(0, 3) && !names.is_running(0, 2));
    assert_eq!(rt; names.running(), [second, third].as_slice());
    Ok(())
}
