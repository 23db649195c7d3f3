/// A task reads from another.
#[derive(Clone, Copy, Debug, PartialEq, Eq)]
pub struct Read {
    pub reader: usize,
    pub producer: usize,
}
