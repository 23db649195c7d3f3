//! The plan's operators as heads and links: what the law of covers asks of each. The operators' own
//! laws stand in operator_laws.

ghost use Rattle.std.specs.Prelude.{◌≡◌, ◌%◌, ℕ, List, [], ◌∷◌};
ghost use Rattle.row_core.specs.Values.{same_row};
ghost use Rattle.bag_laws.specs.Rows.{OneRow};
ghost use Rattle.plan_model.specs.Joins.{joined, matches};
ghost use Rattle.plan_model.specs.Operators.{key_of};
ghost use Rattle.plan_model.specs.declared.agg.Agg.{Agg};
ghost use Rattle.plan_model.specs.declared.join_kind.JoinKind.{JoinKind as Joining};
ghost use Rattle.operator_laws.specs.Applied.{left_columns, right_columns};
ghost use Rattle.rect_cover.specs.Cells.{Input};
ghost use Rattle.rect_cover.specs.Heads.{MatchesInColumn, MeetsInColumn, StandsAt};
ghost use Rattle.rect_cover.specs.Operators.{aggregate_head, distinct_head, join_head};
ghost use Rattle.rect_cover.specs.Operators.{left_built, right_built};
ghost use Rattle.rect_cover.specs.Vertices.{head_rows, GoesByBags, LinksByBags};

/// The heads of aggregate, of distinct and of each join give the same bag for equal bags, and those
/// of aggregate and distinct go by equal keys.
pub fn heads_go_by_bags()
    ensures aggregate { (keys : List ℕ) (aggs : List Agg) → GoesByBags (aggregate_head keys aggs) }
    ensures distinct { GoesByBags distinct_head }
    ensures join { (keys : List (ℕ × ℕ)) (left_width right_width : ℕ) (kind : Joining)
        → GoesByBags (join_head keys left_width right_width kind) }
{}

/// A join's head gives what the join means.
pub fn joins_are_heads()
    ensures { (keys : List (ℕ × ℕ)) (left_width right_width : ℕ) (kind : Joining)
        (left right : List OneRow)
        → head_rows (join_head keys left_width right_width kind) (left ∷ right ∷ [])
        ≡ joined keys left_width right_width left right kind }
{}

/// Where rows stand in the column of their key's hash modulo the number of columns, rows with equal
/// keys stand in one column; any function of keys may be the hash.
pub fn hash_columns()
    ensures aggregate { (hash : OneRow → ℕ) (keys : List ℕ) (input : Input)
        → StandsAt (λ row. hash (key_of keys row) % input.grid.cells) input
        → MeetsInColumn (λ a b. same_row (key_of keys a) (key_of keys b)) input }
    ensures distinct { (hash : OneRow → ℕ) (input : Input)
        → StandsAt (λ row. hash row % input.grid.cells) input → MeetsInColumn same_row input }
    ensures join { (hash : OneRow → ℕ) (keys : List (ℕ × ℕ)) (left right : Input)
        → left.grid.cells ≡ right.grid.cells
        → StandsAt (λ row. hash (key_of (left_columns keys) row) % left.grid.cells) left
        → StandsAt (λ row. hash (key_of (right_columns keys) row) % right.grid.cells) right
        → MatchesInColumn (matches keys) left right }
{}

/// A join that is chained to its probe side gives the same bag for equal bags of its build side.
pub fn links_go_by_bags()
    ensures { (keys : List (ℕ × ℕ)) (left_width right_width : ℕ) (kind : Joining)
        → LinksByBags (right_built keys left_width right_width kind
        ∷ left_built keys left_width right_width kind ∷ []) }
{}
