ghost use Rattle.std.specs.Prelude.{◌≡◌, ◌++◌, ℕ, IsTrue, List};
ghost use Rattle.bag_laws.specs.Rows.{OneRow};
ghost use Rattle.hash_join.specs.Keys.{columns_on};
ghost use Rattle.hash_join.specs.Rules.{probed, rule_of};
ghost use Rattle.plan_model.specs.Joins.{joined};
ghost use Rattle.plan_model.specs.Operators.{repeats_left, repeats_right};
ghost use Rattle.plan_model.specs.declared.join_kind.JoinKind.{JoinKind as OneKind};
ghost use Rattle.plan_model.specs.declared.join_kind.JoinKind.TheVariants.{Full};
ghost use Rattle.plan_model.specs.declared.side.Side.TheVariants.{Left, Right};
ghost use Rattle.row_core.specs.Bags.{SameBag};

/// What probe rows give is the join: of the left rows where the right side may be repeated, of the
/// right rows, up to their order, where the left may, and in a full join of both.
pub fn joins_go_by_probes()
    ensures left { (kind : OneKind) (keys : List (ℕ × ℕ)) (left_width right_width : ℕ)
        (left right : List OneRow) → IsTrue (repeats_right kind)
        → joined keys left_width right_width left right kind
        ≡ probed (rule_of kind Left) Left right_width (columns_on Left keys) (columns_on Right keys)
        right left }
    ensures right { (kind : OneKind) (keys : List (ℕ × ℕ)) (left_width right_width : ℕ)
        (left right : List OneRow) → IsTrue (repeats_left kind)
        → SameBag (joined keys left_width right_width left right kind)
        (probed (rule_of kind Right) Right left_width (columns_on Right keys) (columns_on Left keys)
        left right) }
    ensures full { (keys : List (ℕ × ℕ)) (left_width right_width : ℕ) (left right : List OneRow)
        → joined keys left_width right_width left right Full
        ≡ probed (rule_of Full Left) Left right_width (columns_on Left keys)
        (columns_on Right keys) right left
        ++ probed (rule_of Full Right) Right left_width (columns_on Right keys)
        (columns_on Left keys) left right }
{}
