use plan_model::Side;

/// A join that is widened, and the side that is read whole by each subtask.
#[derive(Clone, Copy, Debug, PartialEq, Eq)]
pub struct Widening {
    pub node: u32,
    pub side: Side,
}
