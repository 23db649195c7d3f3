ghost use Rattle.plan_text.specs.OrderLaws.{EachHeadIsMade, EachNodeIsShown, InputsComeBefore};

/// Each head of an accepted plan is made, and made once.
pub fn each_head_is_made()
    ensures { EachHeadIsMade }
{}

/// Each node of an accepted plan is shown, in one vertex, and no other number is.
pub fn each_node_is_shown()
    ensures { EachNodeIsShown }
{}

/// The vertices whose rows a vertex takes are made before it.
pub fn inputs_come_before()
    ensures { InputsComeBefore }
{}
