//! Numbered tasks that read from earlier ones: who reads from whom, which are done, and for each
//! how many of its producers aren't. All reads stand in one list, linked by their producers, so
//! that a task that is done, or no longer, costs as much as it has readers.
#![tactic(auto)]

mod index;
mod links;
mod producers;
mod read;
mod reader_index;
mod turning;

use index::Index;
use links::Links;
pub use producers::Producers;
pub use read::Read;
pub use reader_index::ReaderIndex;
use turning::{collect, lower, raise};
