ghost use Rattle.std.specs.Prelude.{ℕ, List};
ghost use Rattle.row_core.specs.Bags.{SameBag};
ghost use Rattle.bag_laws.specs.Rows.{OneRow};
ghost use Rattle.plan_model.specs.Joins.{joined};
ghost use Rattle.plan_model.specs.declared.join_kind.JoinKind.{JoinKind as OneKind};
ghost use Rattle.plan_model.specs.declared.op.Op.{Op as OneOp};
ghost use Rattle.operator_laws.specs.Applied.{applied};

/// Of equal bags an operator gives equal bags, and a join of equal bags on both sides.
pub fn operators_go_by_bags()
    ensures unary { (op : OneOp) (rows others : List OneRow)
        → SameBag rows others → SameBag (applied op rows) (applied op others) }
    ensures join { (kind : OneKind) (keys : List (ℕ × ℕ)) (left_width right_width : ℕ)
        (left lefts right rights : List OneRow)
        → SameBag left lefts → SameBag right rights
        → SameBag (joined keys left_width right_width left right kind)
        (joined keys left_width right_width lefts rights kind) }
{}
