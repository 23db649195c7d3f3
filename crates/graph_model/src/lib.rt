//! The execution graph of a job as a definition: what each list of events means. The state that
//! events lead to, which event is legal in it, who reads from whom, and which subtasks run again
//! where parts are lost; with the laws that hold in every state.
#![tactic(auto)]

mod cause;
mod event;
mod events;
mod file_sizes;
mod graph_laws;
mod made_vertex;
mod sub;
mod subs;
mod subtask_state;
mod subtask_states;
mod win;

pub use cause::Cause;
pub use event::Event;
pub use events::Events;
pub use file_sizes::FileSizes;
pub use graph_laws::{
    folds_are_valid, inputs_are_linked, nodes_are_in_one_vertex, prefixes_are_legal,
    winners_rows_are_read,
};
pub use made_vertex::MadeVertex;
pub use sub::Sub;
pub use subs::Subs;
pub use subtask_state::SubtaskState;
pub use subtask_states::SubtaskStates;
pub use win::Win;
