//! Plans, and what they mean: the rows of each node, and the text that a job commits; which plans are
//! accepted, and the tables that they read.
#![tactic(auto)]

mod agg;
mod aggs;
mod checking;
mod column;
mod exprs;
mod good_plan;
mod join_kind;
mod key_pairs;
mod kind;
mod kinds;
mod name_set;
mod node;
mod node_check;
mod node_laws;
mod op;
mod plan;
mod plan_error;
mod plan_fault;
mod plan_kind;
mod schema;
mod setting;
mod setting_values;
mod settings;
mod ship;
mod side;
mod table_names;
mod tables;
mod widths;

pub use agg::Agg;
pub use aggs::Aggs;
pub use checking::check_plan;
pub use column::Column;
pub use exprs::Exprs;
pub use good_plan::GoodPlan;
pub use join_kind::JoinKind;
pub use key_pairs::KeyPairs;
pub use kind::Kind;
pub use kinds::Kinds;
pub use node::Node;
pub use node_laws::{bags_stand_on_inputs, good_nodes, rows_have_widths, widths_stand_on_inputs};
pub use op::Op;
pub use plan::Plan;
pub use plan_error::PlanError;
pub use plan_fault::PlanFault;
pub use plan_kind::PlanKind;
pub use schema::Schema;
pub use setting::{SETTINGS, Setting};
pub use settings::Settings;
pub use ship::Ship;
pub use side::Side;
pub use table_names::TableNames;
pub use tables::tables_of;
pub use widths::{Widths, width_at, widths_at};
