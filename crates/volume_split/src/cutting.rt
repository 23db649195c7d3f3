ghost use Rattle.std.specs.Prelude.{◌≡◌, ◌⊎◌, ℕ, ◌+◌, ◌<◌, ◌≤◌, All, IfOk, List, MatchOption, length, sum};
ghost use Rattle.std.specs.List.{concat};
ghost use Rattle.volume_split.specs.Runs.{greedy_runs, largest_run};
ghost use Rattle.volume_split.specs.Groups.{Parts, groups_of, runs_of};

use crate::{BigSizes, Group, Groups, NoMemory};
use std::alloc::Global;

/// The greedy groups of sizes in bytes: an item joins the present group if the sum stays at most
/// `limit`, and else begins a new one. So a group whose sum is above the limit is one item alone.
pub fn cuts(alloc: Global, limit: u128, sizes: &BigSizes) -> Result<Groups, NoMemory>
    ensures greedy { IfOk result (λ groups. groups ≡ groups_of (greedy_runs limit sizes.now)) }
    ensures parted { IfOk result (Parts 0 (length sizes.now)) }
    ensures filled { IfOk result (All (λ group. group.start < group.end)) }
    ensures whole { IfOk result (λ groups. concat (runs_of sizes.now groups) ≡ sizes.now) }
    ensures within { IfOk result
        (λ groups. All (λ run. (sum run ≤ limit) ⊎ (length run ≡ 1)) (runs_of sizes.now groups)) }
{
    let groups = cut(alloc, limit, sizes.as_slice())?;
    Ok(Groups::from_vec(groups))
}

/// The number of groups that `cuts` gives.
pub fn count(limit: u128, sizes: &BigSizes) -> u64
    ensures greedy { result ≡ length (greedy_runs limit sizes.now) }
    ensures fewest { (runs : List (List ℕ)) → concat runs ≡ sizes.now → largest_run runs ≤ limit
        → result ≤ length runs }
{
    count_runs(limit, sizes.as_slice())
}

pub(crate) fn cut(alloc: Global, limit: u128, sizes: &[u128]) -> Result<Vec<Group>, NoMemory>
    ensures { IfOk result (λ groups. groups.items ≡ groups_of (greedy_runs limit sizes.now)) }
{
    let [first, rest @ ..] = sizes else {
        return Ok(Vec::new(alloc));
    };
    let mut groups = Vec::new(alloc);
    let mut group = Group { start: 0, end: 1 };
    let mut total = *first;
    for size in rest {
        match joined(limit, total, *size) {
            Some(sum) => total = sum,
            None => {
                groups.push(group)?;
                group.start = group.end;
                total = *size;
            }
        }
        group.end += 1;
    }
    groups.push(group)?;
    Ok(groups)
}

pub(crate) fn count_runs(limit: u128, sizes: &[u128]) -> u64
    ensures { result ≡ length (greedy_runs limit sizes.now) }
{
    let [first, rest @ ..] = sizes else {
        return 0;
    };
    let mut count = 1;
    let mut total = *first;
    for size in rest {
        match joined(limit, total, *size) {
            Some(sum) => total = sum,
            None => {
                count += 1;
                total = *size;
            }
        }
    }
    count
}

// The sum of a run with one more size, if it is at most the limit.
fn joined(limit: u128, total: u128, size: u128) -> Option<u128>
    ensures { MatchOption result (limit < total + size)
        (λ sum. (sum ≡ total + size) × (sum ≤ limit)) }
{
    total.checked_add(size).filter(|sum| *sum <= limit)
}
