//! Which subtasks of a vertex read which cells of its inputs: grids, rects of cells, and the
//! assignments that are covers. For every cover the sum over the subtasks of a vertex's operators
//! is its operators on the whole; the laws say it.
#![tactic(auto)]

mod all_subtasks;
mod assignment;
mod both_sides;
mod cell_sizes;
mod covering;
mod grid;
mod grids;
mod laws;
mod one_input;
mod operators;
mod rect;
mod rects;
mod shape;
mod shape_kind;
mod subtask;

pub use assignment::Assignment;
pub use cell_sizes::CellSizes;
pub use covering::covers;
pub use grid::Grid;
pub use grids::Grids;
pub use laws::{
    column_law, full_law, inner_law, keyed_law, left_driven_law, right_driven_law, row_wise_law,
    vertex_law, vertices_go_by_bags,
};
pub use operators::{hash_columns, heads_go_by_bags, joins_are_heads, links_go_by_bags};
pub use rect::Rect;
pub use rects::Rects;
pub use shape::Shape;
pub use shape_kind::ShapeKind;
pub use subtask::Subtask;
