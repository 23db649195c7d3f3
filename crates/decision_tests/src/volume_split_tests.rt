ghost use Rattle.std.specs.Bool.{OnTrue};
ghost use Rattle.std.specs.Prelude.{◌<◌, ◌^◌, IfOk, sum};

use std::alloc::Global;
use std::process::Abort;
use std::test::Fail;
use volume_split::{BigSizes, Group, NoMemory, choose, count, cuts};

fn total_fits(sizes: &[u128]) -> bool
    ensures { OnTrue result (sum sizes.now < 2 ^ 128) }
{
    let mut total: u128 = 0;
    for size in sizes {
        let Some(more) = total.checked_add(*size) else {
            return false;
        };
        total = more;
    }
    true
}

// The numbers k * 7919 mod 1000 for each k below 65,536.
fn many_sizes(rt: &impl Abort, alloc: Global) -> Result<BigSizes, NoMemory>
    ensures { IfOk result (λ sizes. sum sizes < 2 ^ 128) }
{
    let mut items = Vec::new(alloc);
    for k in 0..65_536u64 {
        items.push(u128::from(k * 7919 % 1000))?;
    }
    assert!(rt; total_fits(items.as_slice()));
    Ok(BigSizes::from_vec(items))
}

// Many sizes are grouped in time, and the groups are as many as was asked for.
#[test]
fn groups_many_sizes(rt: HostRuntime) -> Result<(), Fail> {
    let sizes = many_sizes(&rt, rt.alloc())?;
    let groups = choose(rt.alloc(), 1000, 1, 100, &sizes)?;
    assert_eq!(rt; groups.as_slice().len(), 100);
    let runs = cuts(rt.alloc(), 1000, &sizes)?;
    assert_eq!(rt; runs.as_slice().len() as u64, count(1000, &sizes));
    Ok(())
}

#[test]
fn spreads_many_sizes_by_their_number(rt: HostRuntime) -> Result<(), Fail> {
    let sizes = many_sizes(&rt, rt.alloc())?;
    let groups = choose(rt.alloc(), u128::MAX, 500, 1000, &sizes)?;
    assert_eq!(rt; groups.as_slice().len(), 500);
    let last = Group {
        start: 65_404,
        end: 65_536,
    };
    assert_eq!(rt; groups.into_vec().last(), Some(&last));
    Ok(())
}
