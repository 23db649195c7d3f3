ghost use Rattle.std.specs.Prelude.{ℕ, List};
ghost use Rattle.row_core.specs.Bags.{SameBag};
ghost use Rattle.bag_laws.specs.Rows.{OneRow};
ghost use Rattle.vertex_builder.specs.declared.vertex_output.VertexOutput.{VertexOutput};
ghost use Rattle.task_parts.specs.Tasks.{TaskMay};

/// What a task may give goes by the bag of its chain's rows: their order is free.
pub fn tasks_go_by_bags()
    ensures { (attempt : ℕ) (outputs : List VertexOutput) (rows others : List OneRow)
        (part : ℕ → ℕ → List OneRow)
        → SameBag rows others → TaskMay attempt outputs rows part
        → TaskMay attempt outputs others part }
{}
