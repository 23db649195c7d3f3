//! The vertices that are made: their nodes, decisions and winners by number; what a vertex reads,
//! and which vertex can be made or widened next.
#![tactic(auto)]

mod copying;
mod made_vertices;
mod makers;
mod making;
mod shaping;
mod widening;

pub use copying::{copied_files, copied_names, copied_sizes, unwon_subtasks};
pub use made_vertices::{MadeVertices, are_decided};
use makers::Makers;
pub use making::next_vertex;
pub use shaping::shape_of;
pub use widening::can_widen;
