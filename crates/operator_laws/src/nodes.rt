ghost use Rattle.std.specs.Prelude.{◌≡◌, ℕ, IsTrue, List, length};
ghost use Rattle.std.specs.List.{flat_map};
ghost use Rattle.row_core.specs.Bags.{SameBag};
ghost use Rattle.bag_laws.specs.Rows.{OneRow};
ghost use Rattle.plan_model.specs.Checks.{takes};
ghost use Rattle.plan_model.specs.Plans.{Bag, bag_at, bag_of, sink_section, sink_sections};
ghost use Rattle.plan_model.specs.Sinks.{sorted_lines};
ghost use Rattle.plan_model.specs.declared.node.Node.{Node as OneNode};
ghost use Rattle.plan_model.specs.declared.op.Op.{Op as OneOp};
ghost use Rattle.operator_laws.specs.Applied.{applied};
ghost use Rattle.plan_model.specs.Nodes.{Alike, sink_at};
ghost use Rattle.plan_model.specs.Operators.{is_unary};

/// The rows of a plan's node are what its operator gives on the rows of its inputs, one input after
/// the other.
pub fn nodes_apply()
    ensures { (files : List ℕ → List (List ℕ)) (op : OneOp) (inputs : List Bag)
        → IsTrue (is_unary op) → IsTrue (takes op (length inputs))
        → (bag_of files op inputs).rows ≡ applied op (flat_map (λ bag. bag.rows) inputs) }
{}

/// Of equal bags every node gives equal bags, of one width.
pub fn nodes_go_by_bags()
    ensures { (files : List ℕ → List (List ℕ)) (op : OneOp) (inputs others : List Bag)
        → ((place : ℕ) → Alike (bag_at inputs place) (bag_at others place))
        → Alike (bag_of files op inputs) (bag_of files op others) }
{}

/// Equal bags give the same text of a sink, and of a plan's nodes where the sinks' bags are equal.
pub fn sections_go_by_bags()
    ensures lines { (rows others : List OneRow)
        → SameBag rows others → sorted_lines rows ≡ sorted_lines others }
    ensures section { (op : OneOp) (bag other : Bag)
        → SameBag bag.rows other.rows → sink_section op bag ≡ sink_section op other }
    ensures text { (nodes : List OneNode) (bags others : List Bag) → length bags ≡ length others
        → ((place : ℕ) → IsTrue (sink_at nodes place)
        → SameBag (bag_at bags place).rows (bag_at others place).rows)
        → sink_sections nodes bags ≡ sink_sections nodes others }
{}
