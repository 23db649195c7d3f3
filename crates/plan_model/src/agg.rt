ghost use Rattle.std.specs.Prelude.{◌≡◌};
ghost use Rattle.plan_model.specs.Checks.{agg_within};

/// What an aggregate tells of the rows of one key. A column goes by its place in the input.
#[derive(Clone, Copy, Debug, PartialEq, Eq)]
pub enum Agg {
    Count,
    Sum(u32),
    Min(u32),
    Max(u32),
}

impl Agg {
    /// Whether the column that it looks at is below the width.
    pub fn fits(self, width: u32) -> bool
        ensures { result ≡ agg_within width self }
    {
        match self {
            Agg::Count => true,
            Agg::Sum(column) | Agg::Min(column) | Agg::Max(column) => column < width,
        }
    }
}
