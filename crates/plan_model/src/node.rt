use crate::Op;
use row_core::Columns;

/// An operator, the nodes whose rows it takes, and whether these are spread anew over its subtasks.
#[derive(Debug, Drop)]
pub struct Node {
    pub op: Op,
    pub inputs: Columns,
    pub rebalance: bool,
}
