ghost use Rattle.std.specs.Prelude.{◌≡◌};
ghost use Rattle.row_core.specs.Exprs.{truth_from, lesser, greater, opposite};

/// What a test says of a row, from the least to the greatest.
#[derive(Clone, Copy, Debug, PartialEq, Eq)]
pub enum Truth {
    No,
    Unknown,
    Yes,
}

impl Truth {
    pub fn of(yes: bool) -> Truth
        ensures { result ≡ truth_from yes }
    {
        if yes { Truth::Yes } else { Truth::No }
    }

    /// The lesser of the two.
    pub fn and(self, other: Truth) -> Truth
        ensures { result ≡ lesser self other }
    {
        match (self, other) {
            (Truth::No, _) | (_, Truth::No) => Truth::No,
            (Truth::Yes, Truth::Yes) => Truth::Yes,
            _ => Truth::Unknown,
        }
    }

    /// The greater of the two.
    pub fn or(self, other: Truth) -> Truth
        ensures { result ≡ greater self other }
    {
        self.not().and(other.not()).not()
    }

    /// No for Yes and Yes for No.
    pub fn not(self) -> Truth
        ensures { result ≡ opposite self }
    {
        match self {
            Truth::No => Truth::Yes,
            Truth::Unknown => Truth::Unknown,
            Truth::Yes => Truth::No,
        }
    }
}
