ghost use Rattle.std.specs.Prelude.{◌≡◌, ◌<◌, ◌^◌};
ghost use Rattle.plan_model.specs.Operators.{repeats_right};
ghost use Rattle.plan_model.specs.Plans.{join_width};

/// Which rows a join gives; docs/SEMANTICS.md has a row for each.
#[derive(Clone, Copy, Debug, PartialEq, Eq)]
pub enum JoinKind {
    Inner,
    Left,
    Right,
    Full,
    Semi,
    Anti,
}

impl JoinKind {
    /// How many values the rows of the join have, for sides of these widths.
    pub fn width(self, left: u64, right: u64) -> u64
        requires left { left < 2 ^ 63 }
        requires right { right < 2 ^ 63 }
        ensures { result ≡ join_width self left right }
    {
        match self {
            JoinKind::Semi | JoinKind::Anti => left,
            _ => left + right,
        }
    }

    /// Whether each left row gives its rows by itself, so that the right side may be repeated.
    pub fn repeats_right(self) -> bool
        ensures { result ≡ repeats_right self }
    {
        !matches!(self, JoinKind::Right | JoinKind::Full)
    }
}
