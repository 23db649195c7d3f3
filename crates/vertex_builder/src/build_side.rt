ghost use Rattle.std.specs.Prelude.{◌≡◌, None, if◌then◌else◌};
ghost use Rattle.vertex_builder.specs.Edges.{build_place, is_join, probe_place, widening_of};

use crate::Widening;
use plan_model::{Op, Side};

/// The side that an operator reads whole, where it is a join that is widened.
pub fn build_side(op: &Op, widened: &[Widening], node: u32) -> Option<Side>
    ensures { result ≡ (if is_join op.now then widening_of widened.now node else None) }
{
    match op {
        Op::Join { .. } => widening_of(widened, node),
        _ => None,
    }
}

// The side of the first widening of a node.
fn widening_of(widened: &[Widening], node: u32) -> Option<Side>
    ensures { result ≡ widening_of widened.now node }
{
    widened
        .iter()
        .find(|widening| widening.node == node)
        .map(|widening| widening.side)
}

/// The input at which a join takes the side that is built.
pub fn build_place(side: Side) -> u32
    ensures { result ≡ build_place side }
{
    match side {
        Side::Left => 0,
        Side::Right => 1,
    }
}

/// The input at which a join takes the other side.
pub fn probe_place(side: Side) -> u32
    ensures { result ≡ probe_place side }
{
    match side {
        Side::Left => 1,
        Side::Right => 0,
    }
}
