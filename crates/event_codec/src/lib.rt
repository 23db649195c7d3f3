//! The spelling of events on the log: each event is written in one way, and whatever is read is an
//! event that is spelled so. docs/FORMATS.md states the format.
#![tactic(auto)]

mod assignments;
mod decoding;
mod encoding;
mod event_error;
mod event_reading;
mod lists;
mod marks;
mod numbers;
mod pairs;
mod parts;
mod readable;
mod reading;
mod sizes;
mod text;
mod writable;
mod writing;

pub use decoding::{decode, one_spelling};
pub use encoding::{encode, spelled_are_short};
pub use event_error::EventError;
pub use event_reading::read_event;
use readable::Readable;
use writable::Writable;
