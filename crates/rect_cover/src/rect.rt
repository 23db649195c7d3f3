ghost use Rattle.std.specs.Prelude.{◌≡◌, ◌<◌, ◌≤◌, ◌&&◌, nat_lt, nat_le, ℕ};
ghost use Rattle.rect_cover.specs.Cells.{is_inside};

/// A rectangle of cells: producers `p0` up to `p1` and cells `s0` up to `s1`, ends not included.
#[derive(Clone, Copy, Debug, PartialEq, Eq)]
pub struct Rect {
    pub p0: u32,
    pub p1: u32,
    pub s0: u32,
    pub s1: u32,
}

impl Rect {
    /// Whether the cell of the producer stands in it.
    pub fn contains(self, producer: u32, cell: u32) -> bool
        ensures { result ≡ is_inside self producer cell }
    {
        (self.p0 <= producer && producer < self.p1) && (self.s0 <= cell && cell < self.s1)
    }

    /// Whether it has cells of the column.
    pub fn spans(self, cell: u32) -> bool
        ensures { result ≡ (nat_le self.s0 cell && nat_lt cell self.s1) }
    {
        self.s0 <= cell && cell < self.s1
    }

    // A later producer, up to the end, before which the column's cells stand in it just as the
    // producer's does.
    pub(crate) fn change_after(self, producer: u32, cell: u32, end: u32) -> u32
        requires { producer < end }
        ensures after { producer < result }
        ensures within { result ≤ end }
        ensures same { (p : ℕ) → producer ≤ p → p < result
            → is_inside self p cell ≡ is_inside self producer cell }
    {
        if producer < self.p0 {
            self.p0.min(end)
        } else if producer < self.p1 {
            self.p1.min(end)
        } else {
            end
        }
    }
}
