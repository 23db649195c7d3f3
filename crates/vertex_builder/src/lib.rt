//! The vertices of a plan: chains of nodes that run in one task, with what comes in and goes out.
//! A vertex can be made once the vertices of its inputs are complete.
#![tactic(auto)]

mod build_side;
mod builder;
mod chain;
mod consumers;
mod edge;
mod edge_list;
mod inputs;
mod links;
mod making;
mod marks;
mod node_list;
mod node_set;
mod node_widths;
mod shipping;
mod vertex;
mod vertex_input;
mod vertex_inputs;
mod vertex_output;
mod vertex_outputs;
mod vertices;
mod widening;
mod widenings;

pub use builder::makeable;
pub use chain::{chained_nodes_take_one, chains_part_the_plan, one_chain};
use edge::Edge;
use edge_list::EdgeList;
pub use inputs::{inputs_come_out, vertices_stay};
pub use making::one_answer;
pub use node_list::NodeList;
pub use node_set::NodeSet;
pub use vertex::Vertex;
pub use vertex_input::VertexInput;
pub use vertex_inputs::VertexInputs;
pub use vertex_output::VertexOutput;
pub use vertex_outputs::VertexOutputs;
pub use vertices::Vertices;
pub use widening::Widening;
pub use widenings::Widenings;
