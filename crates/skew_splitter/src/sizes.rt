ghost use Rattle.std.specs.Prelude.{◌≡◌};
ghost use Rattle.skew_splitter.specs.Columns.{size_at};

use plan_model::Side;

/// Sizes in bytes, of both sides of a join.
#[derive(Clone, Copy, Debug)]
pub struct Sizes {
    pub left: u64,
    pub right: u64,
}

impl Sizes {
    // The size on one side.
    pub(crate) fn at(self, side: Side) -> u64
        ensures { result ≡ size_at side self }
    {
        match side {
            Side::Left => self.left,
            Side::Right => self.right,
        }
    }
}
