/// Where the bytes of a cell stand in the file of its part.
#[derive(Clone, Copy, Debug)]
pub struct CellPlace {
    pub at: u64,
    pub len: u64,
}
