//! Whether numbers are below an end, as some calls require.

ghost use Rattle.std.specs.Bool.{OnTrue};
ghost use Rattle.std.specs.Prelude.{◌<◌, All};

pub fn are_below(numbers: &[usize], end: usize) -> bool
    ensures { OnTrue result (All (λ number. number < end) numbers.now) }
{
    numbers.iter().all(|number| *number < end)
}
