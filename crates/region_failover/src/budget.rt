ghost use Rattle.std.specs.Prelude.{◌≡◌, ◌↔◌, ◌<◌, ◌≤◌};

/// Whether a job goes on after a trouble.
#[derive(Clone, Copy, Debug, PartialEq, Eq)]
pub enum Budget {
    /// It restarts what was lost.
    Go,
    /// Its restarts are spent, so it fails.
    Spent,
}

/// Whether a job that has had so many troubles, of which this many are allowed, goes on.
pub fn trouble(count: u32, limit: u32) -> Budget
    ensures spent { (result ≡ Budget.Spent) ↔ (limit < count) }
    ensures go { (result ≡ Budget.Go) ↔ (count ≤ limit) }
{
    if count > limit {
        Budget::Spent
    } else {
        Budget::Go
    }
}
