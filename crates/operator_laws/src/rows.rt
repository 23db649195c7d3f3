ghost use Rattle.std.specs.Prelude.{◌≡◌, ◌∷◌, ◌++◌, [], ℕ, IsTrue, List};
ghost use Rattle.std.specs.List.{flat_map};
ghost use Rattle.row_core.specs.Bags.{SameBag};
ghost use Rattle.bag_laws.specs.Rows.{OneRow};
ghost use Rattle.plan_model.specs.Joins.{joined};
ghost use Rattle.plan_model.specs.declared.join_kind.JoinKind.{JoinKind as OneKind};
ghost use Rattle.plan_model.specs.declared.op.Op.{Op as OneOp};
ghost use Rattle.operator_laws.specs.Applied.{applied};
ghost use Rattle.plan_model.specs.Operators.{is_row_wise, repeats_left, repeats_right};

/// Filter, project, explode and union go row by row: what they give on a list is what they give on
/// each row in turn, and on a sum the sum of what they give on each part.
pub fn rows_go_alone()
    ensures each { (op : OneOp) (rows : List OneRow) → IsTrue (is_row_wise op)
        → applied op rows ≡ flat_map (λ row. applied op (row ∷ [])) rows }
    ensures sum { (op : OneOp) (rows others : List OneRow) → IsTrue (is_row_wise op)
        → applied op (rows ++ others) ≡ applied op rows ++ applied op others }
{}

/// Left rows go alone where the right side may be repeated: nothing comes of none, of two parts
/// what each gives, and so of all rows what each gives by itself.
pub fn left_rows_go_alone()
    ensures none { (kind : OneKind) (keys : List (ℕ × ℕ)) (left_width right_width : ℕ)
        (right : List OneRow) → IsTrue (repeats_right kind)
        → joined keys left_width right_width [] right kind ≡ [] }
    ensures sum { (kind : OneKind) (keys : List (ℕ × ℕ)) (left_width right_width : ℕ)
        (left more right : List OneRow) → IsTrue (repeats_right kind)
        → joined keys left_width right_width (left ++ more) right kind
        ≡ joined keys left_width right_width left right kind
        ++ joined keys left_width right_width more right kind }
    ensures each { (kind : OneKind) (keys : List (ℕ × ℕ)) (left_width right_width : ℕ)
        (left right : List OneRow) → IsTrue (repeats_right kind)
        → joined keys left_width right_width left right kind
        ≡ flat_map (λ row. joined keys left_width right_width (row ∷ []) right kind) left }
{}

/// Right rows go alone, up to their order, where the left side may be repeated.
pub fn right_rows_go_alone()
    ensures none { (kind : OneKind) (keys : List (ℕ × ℕ)) (left_width right_width : ℕ)
        (left : List OneRow) → IsTrue (repeats_left kind)
        → SameBag (joined keys left_width right_width left [] kind) [] }
    ensures sum { (kind : OneKind) (keys : List (ℕ × ℕ)) (left_width right_width : ℕ)
        (left right more : List OneRow) → IsTrue (repeats_left kind)
        → SameBag (joined keys left_width right_width left (right ++ more) kind)
        (joined keys left_width right_width left right kind
        ++ joined keys left_width right_width left more kind) }
    ensures each { (kind : OneKind) (keys : List (ℕ × ℕ)) (left_width right_width : ℕ)
        (left right : List OneRow) → IsTrue (repeats_left kind)
        → SameBag (joined keys left_width right_width left right kind)
        (flat_map (λ row. joined keys left_width right_width left (row ∷ []) kind) right) }
{}
