use row_view::EncodedRows;
use std::marker::Model;

/// Rows of one width as their bytes, which operators pass on. Contracts see them as a bag.
#[derive(Debug, Drop)]
pub struct Batch {
    pub width: u32,
    pub rows: EncodedRows,
}

impl Model for Batch {
    ghost use Rattle.plan_model.specs.Plans.{Bag};

    ghost Value = { Bag };

    ghost view = { λ batch. record { width = batch.width; rows = batch.rows } };
}
