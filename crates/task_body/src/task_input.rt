ghost use Rattle.std.specs.Prelude.{◌≡◌, All};
ghost use Rattle.task_body.specs.Cells.{HasWidth};
ghost use Rattle.task_body.specs.Once.{widths_once};

use crate::TaskCell;

/// The cells that a task reads at one input of its vertex, in the order of rects, producers and
/// columns. The rows of a part's cells have this many values.
#[derive(Debug, Drop)]
pub struct TaskInput {
    pub width: u32,
    pub cells: Vec<TaskCell>,
    pub ghost wide: { All (HasWidth width) cells.items } by { widths_once width cells.items },
}

impl TaskInput {
    pub fn new(width: u32, cells: Vec<TaskCell>) -> Self
        requires { All (HasWidth width) cells.items }
        ensures width { result.width ≡ width }
        ensures cells { result.cells.items ≡ cells.items }
    {
        TaskInput { width, cells }
    }
}
