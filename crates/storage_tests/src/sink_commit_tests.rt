use estate::Estate;
use row_core::Bytes;
use sink_commit::{CommitError, Committed, commit_once};
use std::alloc::Global;
use std::test::Fail;
use test_estates::failing_at;

// Commits the text "text" of a job under the id "orders".
fn commit<E: Estate>(alloc: Global, estate: &mut E, job: &[u8]) -> Result<Committed, CommitError> {
    match (
        Bytes::from_slice(alloc, b"orders"),
        Bytes::from_slice(alloc, job),
        Bytes::from_slice(alloc, b"text"),
    ) {
        (Ok(id), Ok(job), Ok(text)) => commit_once(estate, &id, &job, &text),
        _ => Err(CommitError::NoMemory),
    }
}

#[test]
fn the_first_job_keeps_the_id(rt: HostRuntime) -> Result<(), Fail> {
    let alloc = rt.alloc();
    let mut estate = failing_at(alloc, &[])?;
    assert!(rt; matches!(commit(alloc, &mut estate, b"job"), Ok(Committed::Fresh)));
    assert!(rt; matches!(commit(alloc, &mut estate, b"job"), Ok(Committed::Before)));
    let taken = commit(alloc, &mut estate, b"text");
    assert!(rt;
        matches!(&taken, Err(CommitError::IdTaken { other }) if other.as_slice() == b"job".as_slice())
    );
    Ok(())
}

#[test]
fn a_fault_of_either_call_is_answered(rt: HostRuntime) -> Result<(), Fail> {
    let alloc = rt.alloc();
    for call in 0u64..2 {
        let mut estate = failing_at(alloc, &[call])?;
        assert!(rt;
            matches!(
                commit(alloc, &mut estate, b"job"),
                Err(CommitError::SinkFault)
            )
        );
        assert!(rt; matches!(commit(alloc, &mut estate, b"job"), Ok(Committed::Fresh)));
    }
    Ok(())
}
