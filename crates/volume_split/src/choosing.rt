ghost use Rattle.std.specs.Prelude.{◌≡◌, ◌≢◌, ◌⊎◌, ℕ, ◌+◌, ◌*◌, ◌/◌, ◌^◌, ◌<◌, ◌≤◌, IfOk, List, [], All, length, sum};
ghost use Rattle.std.specs.List.{concat};
ghost use Rattle.volume_split.specs.Runs.{greedy_runs, largest_run};
ghost use Rattle.volume_split.specs.Groups.{Parts, runs_of, even_groups};
ghost use Rattle.volume_split.specs.Choices.{IsChosen, IsLeastLimit};

use crate::cutting::{count_runs, cut};
use crate::{BigSizes, Group, Groups, NoMemory};
use std::alloc::Global;

/// Groups of sizes in bytes, from `min` to `max` of them where that can be: those of `cuts` at the
/// target. Where these are too many, the limit is raised to the least at which they are not, and
/// then there may be fewer than `min`. Where they are too few, the items are spread by their number
/// alone. No items make one empty group.
pub fn choose(
    alloc: Global,
    target: u128,
    min: u32,
    max: u32,
    sizes: &BigSizes,
) -> Result<Groups, NoMemory>
    requires positive { 1 ≤ min }
    requires ordered { min ≤ max }
    requires summable { sum sizes.now < 2 ^ 128 }
    ensures chosen { IfOk result (IsChosen target min max sizes.now) }
    ensures parted { IfOk result (Parts 0 (length sizes.now)) }
    ensures filled { IfOk result
        (λ groups. sizes.now ≢ [] → All (λ group. group.start < group.end) groups) }
    ensures whole { IfOk result (λ groups. concat (runs_of sizes.now groups) ≡ sizes.now) }
    ensures few { IfOk result (λ groups. length groups ≤ max) }
    ensures enough { IfOk result (λ groups. length (greedy_runs target sizes.now) ≤ max
        → (min ≤ length groups) ⊎ (length sizes.now ≤ length groups)) }

    // Where the limit was raised, no runs that make up the sizes, at most `max` of them, have a
    // smaller largest one.
    ensures smallest { IfOk result (λ groups. max < length (greedy_runs target sizes.now)
        → (runs : List (List ℕ)) → concat runs ≡ sizes.now → length runs ≤ max
        → largest_run (runs_of sizes.now groups) ≤ largest_run runs) }
{
    let groups = chosen_groups(alloc, target, min, max, sizes.as_slice())?;
    Ok(Groups::from_vec(groups))
}

fn chosen_groups(
    alloc: Global,
    target: u128,
    min: u32,
    max: u32,
    sizes: &[u128],
) -> Result<Vec<Group>, NoMemory>
    requires positive { 1 ≤ min }
    requires ordered { min ≤ max }
    requires summable { sum sizes.now < 2 ^ 128 }
    ensures { IfOk result (λ groups. IsChosen target min max sizes.now groups.items) }
{
    if sizes.is_empty() {
        return Ok(vec![in alloc; Group { start: 0, end: 0 }]?);
    }
    let most = u64::from(max);
    let items = sizes.len() as u64;
    let fewest = u64::from(min).min(items);
    let found = count_runs(target, sizes);
    if found > most {
        cut(alloc, least_limit(target, most, sizes), sizes)
    } else if found < fewest {
        spread(alloc, items, fewest)
    } else {
        cut(alloc, target, sizes)
    }
}

// By halving: `low` has too many runs, and `high` has not.
fn least_limit(target: u128, most: u64, sizes: &[u128]) -> u128
    requires positive { 1 ≤ most }
    requires above { most < length (greedy_runs target sizes.now) }
    requires summable { sum sizes.now < 2 ^ 128 }
    ensures { IsLeastLimit most sizes.now result }
{
    let mut low = target;
    let mut high = total(sizes);
    while high - low > 1 {
        let middle = low + (high - low) / 2;
        if count_runs(middle, sizes) <= most {
            high = middle;
        } else {
            low = middle;
        }
    }
    high
}

fn total(sizes: &[u128]) -> u128
    requires { sum sizes.now < 2 ^ 128 }
    ensures { result ≡ sum sizes.now }
{
    sizes.iter().sum()
}

fn spread(alloc: Global, n: u64, m: u64) -> Result<Vec<Group>, NoMemory>
    requires { 0 < m }
    ensures { IfOk result (λ groups. groups.items ≡ even_groups n m) }
{
    let mut groups = Vec::with_capacity(alloc, m as usize)?;
    for k in 0..m {
        groups.push(Group {
            start: share(n, m, k),
            end: share(n, m, k + 1),
        })?;
    }
    Ok(groups)
}

// Where part k of n items begins, if they are spread over m parts.
fn share(n: u64, m: u64, k: u64) -> u64
    requires positive { 0 < m }
    requires within { k ≤ m }
    ensures { result ≡ k * n / m }
{
    (u128::from(k) * u128::from(n) / u128::from(m)) as u64
}
