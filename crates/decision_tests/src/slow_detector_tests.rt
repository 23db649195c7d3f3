use plan_model::{Setting, Settings};
use slow_detector::{Run, Runs, Times, slow};
use std::alloc::Global;
use std::test::Fail;

const M: u64 = u64::MAX;

// One running subtask of a vertex of four, under a least time of 5 ms: the ratio and the percentage,
// now, the finished ones' times, since when it runs, how many of its attempts run, and whether it is
// slow.
const CASES: &[(u64, u64, u64, &[u64], u64, u32, bool)] = &[
    (75, 150, 114, &[10, 10, 10], 100, 1, false),
    (75, 150, 115, &[10, 10, 10], 100, 1, true),
    // the lower one of two in the middle
    (75, 150, 129, &[40, 20, 10, 30], 100, 1, false),
    (75, 150, 130, &[40, 20, 10, 30], 100, 1, true),
    // half as long again, rounded down
    (75, 150, 116, &[11, 11, 11], 100, 1, true),
    // the least time
    (75, 150, 104, &[1, 1, 1], 100, 1, false),
    (75, 150, 105, &[1, 1, 1], 100, 1, true),
    // too few are finished, a ratio that is just met, and no time
    (75, 150, 199, &[1, 1], 100, 1, false),
    (50, 150, 199, &[1, 1], 100, 1, true),
    (1, 150, 199, &[], 100, 1, false),
    // the ends of the clock: a baseline past it, one at it, and a beginning after now
    (75, 150, M, &[M, M, M], 0, 1, false),
    (75, 100, M, &[M, M, M], 0, 1, true),
    (75, 150, 99, &[1, 1, 1], M, 1, false),
    // as many attempts as may run
    (75, 150, 199, &[10, 10, 10], 100, 2, false),
];

fn settings(ratio: u64, percent: u64) -> Settings {
    let mut settings = Settings::defaults();
    settings.set(Setting::SlowLowerMs, 5);
    settings.set(Setting::SlowRatio, ratio);
    settings.set(Setting::SlowPercent, percent);
    settings
}

fn is_slow(
    alloc: Global,
    settings: &Settings,
    now: u64,
    times: &[u64],
    since: u64,
    running: u32,
) -> Result<bool, Fail> {
    let times = Times::from_vec(Vec::from_slice(alloc, times)?);
    let run = Run {
        subtask: 7,
        running,
        since,
    };
    let runs = Runs::from_vec(vec![in alloc; run]?);
    let found = slow(alloc, now, 4, &times, &runs, settings)?.into_vec();
    Ok(found.as_slice() == [7].as_slice())
}

#[test]
fn a_subtask_is_slow_from_its_baseline_on(rt: HostRuntime) -> Result<(), Fail> {
    for (ratio, percent, now, times, since, running, is_so) in CASES {
        let settings = settings(*ratio, *percent);
        let found = is_slow(rt.alloc(), &settings, *now, times, *since, *running)?;
        assert_eq!(rt; found, *is_so, "at {now}");
    }
    Ok(())
}
