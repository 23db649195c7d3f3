//! Races of the attempts of one subtask. Each lane is one word, and a round of it is decided for
//! one attempt by one exchange of that word, without a lock. What a thread was told stands in its
//! seat.
#![tactic(auto)]

mod finish;
mod no_memory;
mod poll;
mod races;
mod racing;
mod rule;
mod seat;
mod view;
mod word;

pub use finish::Finish;
pub use no_memory::NoMemory;
pub use poll::Poll;
pub use races::Races;
pub use seat::Seat;
pub use view::{Observation, View};
