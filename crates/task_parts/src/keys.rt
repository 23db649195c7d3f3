ghost use Rattle.std.specs.Prelude.{◌≡◌, ◌<◌, ℕ, List, Contains};
ghost use Rattle.bag_laws.specs.Rows.{OneRow};
ghost use Rattle.plan_model.specs.declared.ship.Ship.TheVariants.{Hash as by_hash};
ghost use Rattle.row_core.specs.Hashing.{key_of};
ghost use Rattle.vertex_builder.specs.declared.vertex_output.VertexOutput.{VertexOutput};
ghost use Rattle.task_parts.specs.Tasks.{IsCut};

/// Rows of one key stand in cells of one number, in the parts of one task and of different tasks,
/// where their outputs go by the key's hash into equally many cells.
pub fn keys_share_cells()
    ensures { (attempt other : ℕ) (output another : VertexOutput) (rows others : List OneRow)
        (cells more : ℕ → List OneRow) (columns keys : List ℕ) (c d : ℕ) (a b : OneRow)
        → IsCut attempt output rows cells → IsCut other another others more
        → output.ship ≡ by_hash columns → another.ship ≡ by_hash keys
        → output.cells ≡ another.cells → c < output.cells → d < another.cells
        → Contains (cells c) a → Contains (more d) b
        → key_of columns a ≡ key_of keys b → c ≡ d }
{}
