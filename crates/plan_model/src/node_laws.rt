ghost use Rattle.std.specs.Prelude.{◌≡◌, ◌≤◌, ◌<◌, ◌++◌, ◌∷◌, ℕ, List, [], All, IsTrue, Some, get_or, slice_get, length, map, take};
ghost use Rattle.row_core.specs.Values.{width_limit};
ghost use Rattle.plan_model.specs.Checks.{plan_faults, node_kinds, union_limit};
ghost use Rattle.plan_model.specs.Nodes.{HasItsWidth, IsGood, IsGoodNode, bag_widths, widths_into};
ghost use Rattle.plan_model.specs.Operators.{takes_one};
ghost use Rattle.plan_model.specs.Plans.{Bag, bag_at, bag_of, bags_of};
ghost use Rattle.plan_model.specs.Widths.{width_of, widths_of, input_widths};
ghost use Rattle.plan_model.specs.declared.node.Node.{Node as OneNode};
ghost use Rattle.plan_model.specs.declared.op.Op.{Op as OneOp};

/// In a plan without a fault nothing is wrong with any node: its inputs are nodes before it that give
/// rows, at most 64 of them, and it names only columns that they have.
pub fn good_nodes()
    ensures faultless { (nodes : List OneNode) (place : ℕ) (node : OneNode) → plan_faults nodes ≡ []
        → slice_get nodes place ≡ Some node → node_kinds (take place nodes) node ≡ [] }
    ensures good { (nodes : List OneNode) (place : ℕ) (node : OneNode) → plan_faults nodes ≡ []
        → slice_get nodes place ≡ Some node → IsGoodNode (take place nodes) node }
    ensures earlier { (nodes : List OneNode) (place : ℕ) (node : OneNode) → plan_faults nodes ≡ []
        → slice_get nodes place ≡ Some node → All (λ input. input < place) node.inputs }
    ensures few { (nodes : List OneNode) (place : ℕ) (node : OneNode) → plan_faults nodes ≡ []
        → slice_get nodes place ≡ Some node → length node.inputs ≤ union_limit }
    ensures one { (nodes : List OneNode) (place : ℕ) (node : OneNode) → plan_faults nodes ≡ []
        → slice_get nodes place ≡ Some node → IsTrue (takes_one node.op)
        → length node.inputs ≡ 1 }
{}

/// Each node has a width, which its operator makes of the widths of its inputs; in a plan without a
/// fault it is at most 256.
pub fn widths_stand_on_inputs()
    ensures long { (nodes : List OneNode) → length (widths_of nodes) ≡ length nodes }
    ensures next { (before : List OneNode) (node : OneNode) → widths_of (before ++ node ∷ [])
        ≡ widths_of before ++ width_of node.op (widths_into before node) ∷ [] }
    ensures width { (nodes : List OneNode) (place : ℕ) (node : OneNode) → plan_faults nodes ≡ []
        → slice_get nodes place ≡ Some node
        → get_or (widths_of nodes) place 0 ≡ width_of node.op (input_widths
        (widths_of nodes) node.inputs) }
    ensures narrow { (nodes : List OneNode) → plan_faults nodes ≡ []
        → All (λ width. width ≤ width_limit) (widths_of nodes) }
{}

/// Each node has a bag, of the node's width. In a plan without a fault it is what the node's operator
/// gives on the bags of its inputs, with which nothing is wrong.
pub fn bags_stand_on_inputs()
    ensures long { (files : List ℕ → List (List ℕ)) (nodes : List OneNode)
        → length (bags_of files nodes) ≡ length nodes }
    ensures widths { (files : List ℕ → List (List ℕ)) (nodes : List OneNode)
        → bag_widths (bags_of files nodes) ≡ widths_of nodes }
    ensures next { (files : List ℕ → List (List ℕ)) (before : List OneNode) (node : OneNode)
        → bags_of files (before ++ node ∷ [])
        ≡ bags_of files before ++ bag_of files node.op (map (bag_at
        (bags_of files before)) node.inputs) ∷ [] }
    ensures bag { (files : List ℕ → List (List ℕ)) (nodes : List OneNode) (place : ℕ)
        (node : OneNode)
        → plan_faults nodes ≡ [] → slice_get nodes place ≡ Some node
        → bag_at (bags_of files nodes) place ≡ bag_of files node.op (map (bag_at
        (bags_of files nodes)) node.inputs) }
    ensures good { (files : List ℕ → List (List ℕ)) (nodes : List OneNode) (place : ℕ)
        (node : OneNode)
        → plan_faults nodes ≡ [] → slice_get nodes place ≡ Some node
        → IsGood node.op (map (bag_at (bags_of files nodes)) node.inputs) }
{}

/// The rows of an operator have its width, where those of its inputs have theirs; so have the rows of
/// each node of a plan without a fault.
pub fn rows_have_widths()
    ensures width { (files : List ℕ → List (List ℕ)) (op : OneOp) (inputs : List Bag)
        → (bag_of files op inputs).width ≡ width_of op (bag_widths inputs) }
    ensures rows { (files : List ℕ → List (List ℕ)) (op : OneOp) (inputs : List Bag)
        → IsGood op inputs
        → HasItsWidth (bag_of files op inputs) }
    ensures all { (files : List ℕ → List (List ℕ)) (nodes : List OneNode) → plan_faults nodes ≡ []
        → All HasItsWidth (bags_of files nodes) }
{}
