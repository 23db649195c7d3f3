use plan_model::{PlanError, PlanFault, PlanKind, Setting, Settings, tables_of};
use std::alloc::{AllocError, Global};
use std::test::Fail;
use test_plans::{Short, ShortNode, accepted, plan};

const GOOD: &[ShortNode] = &[
    (Short::Source(1), &[], false),
    (Short::Filter(0), &[0], false),
    (Short::Sink("out"), &[1], false),
];

const BAD_COLUMN: &[ShortNode] = &[
    (Short::Source(1), &[], false),
    (Short::Filter(1), &[0], false),
    (Short::Sink("out"), &[1], false),
];

// The first fault of the plan, where it has one.
fn fault(alloc: Global, nodes: &[ShortNode]) -> Result<Option<PlanFault>, AllocError> {
    match accepted(alloc, plan(alloc, nodes)?) {
        Ok(_) => Ok(None),
        Err(PlanError::Fault(fault)) => Ok(Some(fault)),
        Err(PlanError::NoMemory) => Err(AllocError),
    }
}

#[test]
fn a_good_plan_passes_and_the_first_fault_of_another_is_told(rt: HostRuntime) -> Result<(), Fail> {
    let alloc = rt.alloc();
    let names = tables_of(alloc, &plan(alloc, GOOD)?)?;
    assert_eq!(rt; names.as_slice().len(), 1);
    assert_eq!(rt; fault(alloc, GOOD)?, None);
    let wanted = PlanFault {
        node: Some(1),
        kind: PlanKind::BadColumn,
    };
    assert_eq!(rt; fault(alloc, BAD_COLUMN)?, Some(wanted));
    Ok(())
}

#[test]
fn a_setting_changes_within_its_range(rt: HostRuntime) -> Result<(), Fail> {
    let mut settings = Settings::defaults();
    assert!(rt; settings.set(Setting::MinParallelism, 16));
    assert!(rt; !settings.set(Setting::MinParallelism, 17));
    assert_eq!(rt; settings.min_parallelism(), 16);
    Ok(())
}
