use crate::Offer;

/// What a claim found: the offer at this place among the pending ones, or that the board is
/// stopped.
#[derive(Clone, Copy)]
pub enum Found {
    At(usize, Offer),
    Stop,
}
