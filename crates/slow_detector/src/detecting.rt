ghost use Rattle.std.specs.Prelude.{◌≡◌, ◌<◌, ◌↔◌, [], length, IsTrue, IfOk, IsSorted};
ghost use Rattle.std.specs.Ordering.{nat_cmp};
ghost use Rattle.slow_detector.specs.Slow.{EnoughFinished, AreTheSlow, baseline, slow_subtasks};

use crate::{NoMemory, Run, Runs, Subtasks, Times};
use medians::median;
use plan_model::Settings;
use std::alloc::Global;

/// The slow subtasks of a vertex at this millisecond, by the running times of its finished
/// subtasks; docs/SEMANTICS.md has the rule.
pub fn slow(
    alloc: Global,
    now: u64,
    parallelism: u32,
    times: &Times,
    running: &Runs,
    settings: &Settings,
) -> Result<Subtasks, NoMemory>
    ensures slow { EnoughFinished settings.now parallelism times.now
        → IfOk result (AreTheSlow settings.now now times.now running.now) }
    ensures too_few { ¬ EnoughFinished settings.now parallelism times.now
        → IfOk result (λ slow. slow ≡ []) }
    ensures ascending { IfOk result (IsSorted nat_cmp) }
{
    if !enough_finished(parallelism, times.as_slice(), settings) {
        return Ok(Subtasks::from_vec(Vec::new(alloc)));
    }
    let limit = baseline(settings, median(alloc, times.as_slice())?);
    let mut slow = slow_ones(alloc, running.as_slice(), now, limit, settings.attempts())?;
    slow.sort()?;
    Ok(Subtasks::from_vec(slow))
}

fn enough_finished(parallelism: u32, times: &[u64], settings: &Settings) -> bool
    ensures { IsTrue result ↔ EnoughFinished settings.now parallelism times.now }
{
    let wanted = u128::from(settings.slow_ratio()) * u128::from(parallelism);
    !times.is_empty() && wanted <= 100 * times.len() as u128
}

// In 128 bits, since a percentage of a time may pass 64.
fn baseline(settings: &Settings, median: u64) -> u128
    ensures { result ≡ baseline settings.now median }
{
    let by_median = u128::from(median) * u128::from(settings.slow_percent()) / 100;
    by_median.max(u128::from(settings.slow_lower_ms()))
}

fn slow_ones(
    alloc: Global,
    running: &[Run],
    now: u64,
    limit: u128,
    attempts: u32,
) -> Result<Vec<u32>, NoMemory>
    ensures { IfOk result (λ slow. slow.items ≡ slow_subtasks now limit attempts running.now) }
{
    running
        .iter()
        .filter(|run| u128::from(now.saturating_sub(run.since)) >= limit && run.running < attempts)
        .map(|run| run.subtask)
        .collect(alloc)
}
