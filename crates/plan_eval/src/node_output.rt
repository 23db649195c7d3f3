use row_core::Rows;
use std::marker::Model;

/// What a node gives: its rows, and how many values each has.
#[derive(Drop)]
pub struct NodeOutput {
    pub width: u32,
    pub rows: Rows,
}

impl Model for NodeOutput {
    ghost use Rattle.plan_model.specs.Plans.{Bag};

    ghost Value = { Bag };

    ghost view = { λ output. record { width = output.width; rows = output.rows } };
}
