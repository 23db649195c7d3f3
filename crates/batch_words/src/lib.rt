//! The words of a command line: which order they are, or the place and kind of their first fault.
#![tactic(auto)]

mod number;
mod order;
mod reading;
mod word_error;
mod word_kind;
mod words;

pub use order::Order;
pub use word_error::WordError;
pub use word_kind::WordKind;
pub use words::read_words;
