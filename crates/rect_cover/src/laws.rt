ghost use Rattle.std.specs.Prelude.{◌≡◌, ◌⊎◌, ◌<◌, ℕ, true, List, [], ◌∷◌, slice_get, Some};
ghost use Rattle.std.specs.List.{flat_map, AllZip};
ghost use Rattle.row_core.specs.Bags.{SameBag};
ghost use Rattle.bag_laws.specs.Rows.{OneRow, IsKeyed};
ghost use Rattle.rect_cover.specs.declared.grid.Grid.{Grid};
ghost use Rattle.rect_cover.specs.declared.rect.Rect.{Rect};
ghost use Rattle.rect_cover.specs.declared.shape_kind.ShapeKind.TheVariants.{RowWise, Keyed};
ghost use Rattle.rect_cover.specs.declared.shape_kind.ShapeKind.TheVariants.{LeftDriven};
ghost use Rattle.rect_cover.specs.declared.shape_kind.ShapeKind.TheVariants.{RightDriven};
ghost use Rattle.rect_cover.specs.declared.shape_kind.ShapeKind.TheVariants.{Inner, Full};
ghost use Rattle.rect_cover.specs.Cells.{Reads, Input, rects_of, times};
ghost use Rattle.rect_cover.specs.Cells.{whole, reading, rows_of, read_of};
ghost use Rattle.rect_cover.specs.Covers.{Demand};
ghost use Rattle.rect_cover.specs.Chains.{chained};
ghost use Rattle.rect_cover.specs.Heads.{Match, Gives, driven, driven_back, paired, both_driven};
ghost use Rattle.rect_cover.specs.Heads.{GivesBags, MatchesInColumn, MeetsInColumn, StandsAt};
ghost use Rattle.rect_cover.specs.Laws.{VertexLaw, SumsToWhole};
ghost use Rattle.rect_cover.specs.Vertices.{Head, Link, head_rows, linked, GoesByBags, LinksByBags};

/// For every cover, of every kind and with any wide inputs, the sum over the subtasks of what the
/// vertex gives on what they read is what it gives on the whole, where rows that meet stand in one
/// column.
pub fn vertex_law()
    ensures { VertexLaw }
{}

/// Row by row: what the subtasks read of an input is the input.
pub fn row_wise_law()
    ensures { (grids : List Grid) (subtasks : List Reads) → Demand RowWise grids subtasks
        → (input : ℕ) (grid : Grid) → slice_get grids input ≡ Some grid
        → (rows : ℕ → ℕ → List OneRow)
        → SameBag (flat_map (λ subtask. reading grid rows (rects_of subtask input)) subtasks)
        (whole grid rows) }
{}

/// By keys: an operator that goes by the rows that meet, where these stand in one column.
pub fn keyed_law()
    ensures { (input : Input) (subtasks : List Reads) → Demand Keyed (input.grid ∷ []) subtasks
        → (meets : Match) (op : List OneRow → List OneRow)
        → IsKeyed meets op → MeetsInColumn meets input
        → SameBag (flat_map (λ subtask. op (read_of input 0 subtask)) subtasks)
        (op (rows_of input)) }
{}

/// A left, semi or anti join.
pub fn left_driven_law()
    ensures { (left right : Input) (subtasks : List Reads)
        → Demand LeftDriven (left.grid ∷ right.grid ∷ []) subtasks
        → (matches : Match) (gives : Gives) → GivesBags gives
        → MatchesInColumn matches left right
        → SumsToWhole (driven matches gives) left right subtasks }
{}

/// A right join.
pub fn right_driven_law()
    ensures { (left right : Input) (subtasks : List Reads)
        → Demand RightDriven (left.grid ∷ right.grid ∷ []) subtasks
        → (matches : Match) (gives : Gives) → GivesBags gives
        → MatchesInColumn matches left right
        → SumsToWhole (driven_back matches gives) left right subtasks }
{}

/// An inner join.
pub fn inner_law()
    ensures { (left right : Input) (subtasks : List Reads)
        → Demand Inner (left.grid ∷ right.grid ∷ []) subtasks
        → (matches : Match) (pair : OneRow → OneRow → OneRow)
        → MatchesInColumn matches left right
        → SumsToWhole (paired matches pair) left right subtasks }
{}

/// A full join: what the left rows give with their matches, and what the right rows give with
/// theirs.
pub fn full_law()
    ensures { (left right : Input) (subtasks : List Reads)
        → Demand Full (left.grid ∷ right.grid ∷ []) subtasks
        → (matches : Match) (gives lonely : Gives) → GivesBags gives → GivesBags lonely
        → MatchesInColumn matches left right
        → SumsToWhole (both_driven matches gives lonely) left right subtasks }
{}

/// Rows that stand in the column of their place, as of their key's hash modulo the number of
/// columns, meet in one column, where rows that meet have the same place.
pub fn column_law()
    ensures meets { (meets : Match) (place : OneRow → ℕ) (input : Input)
        → ((a b : OneRow) → meets a b ≡ true → place a ≡ place b)
        → StandsAt place input → MeetsInColumn meets input }
    ensures matches { (matches : Match) (place other : OneRow → ℕ) (left right : Input)
        → ((a b : OneRow) → matches a b ≡ true → place a ≡ other b)
        → StandsAt place left → StandsAt other right → MatchesInColumn matches left right }
{}

/// What a head and a chain give goes by the bags of their inputs, and what a subtask reads goes by
/// the bags of the cells that it reads.
pub fn vertices_go_by_bags()
    ensures heads { (head : Head) (inputs others : List (List OneRow))
        → GoesByBags head → AllZip SameBag inputs others
        → SameBag (head_rows head inputs) (head_rows head others) }
    ensures chains { (links : List Link) (wide others : List (List OneRow))
        (rows more : List OneRow)
        → LinksByBags links → AllZip SameBag wide others → SameBag rows more
        → SameBag (chained (linked links wide) rows) (chained (linked links others) more) }
    ensures cells { (grid : Grid) (rows others : ℕ → ℕ → List OneRow) (rects : List Rect)
        → ((p s : ℕ) → p < grid.producers → s < grid.cells
        → (times rects p s ≡ 0) ⊎ SameBag (rows p s) (others p s))
        → SameBag (reading grid rows rects) (reading grid others rects) }
{}
