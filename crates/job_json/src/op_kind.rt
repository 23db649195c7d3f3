ghost use Rattle.std.specs.Prelude.{◌≡◌};
ghost use Rattle.job_json.specs.Members.{op_kind_named, is_member_of};
ghost use Rattle.job_json.specs.declared.object.Object.{Object};
ghost use Rattle.job_json.specs.declared.object.Object.TheVariants as Object;

/// Which operator a node names.
#[derive(Clone, Copy)]
pub enum OpKind {
    Source,
    Filter,
    Project,
    Explode,
    Union,
    Aggregate,
    Distinct,
    Join,
    Sink,
}

impl OpKind {
    #[tactic(auto, unfolding(crate::specs::Members::op_kind_named))]
    pub fn named(word: &str) -> Option<OpKind>
        ensures { result ≡ op_kind_named word.now }
    {
        match word {
            "source" => Some(OpKind::Source),
            "filter" => Some(OpKind::Filter),
            "project" => Some(OpKind::Project),
            "explode" => Some(OpKind::Explode),
            "union" => Some(OpKind::Union),
            "aggregate" => Some(OpKind::Aggregate),
            "distinct" => Some(OpKind::Distinct),
            "join" => Some(OpKind::Join),
            "sink" => Some(OpKind::Sink),
            _ => None,
        }
    }

    /// Whether a node of this operator has a member of this name.
    pub fn has_member(self, name: &str) -> bool
        ensures { result ≡ is_member_of (Object.Node self) name.now }
    {
        match self {
            OpKind::Source => matches!(name, "op" | "table" | "columns"),
            OpKind::Filter => matches!(name, "op" | "input" | "where" | "ship"),
            OpKind::Project => matches!(name, "op" | "input" | "exprs" | "ship"),
            OpKind::Explode => matches!(name, "op" | "input" | "column" | "separator" | "ship"),
            OpKind::Union => matches!(name, "op" | "inputs"),
            OpKind::Aggregate => matches!(name, "op" | "input" | "keys" | "aggs"),
            OpKind::Distinct => matches!(name, "op" | "input"),
            OpKind::Join => matches!(name, "op" | "kind" | "left" | "right" | "keys"),
            OpKind::Sink => matches!(name, "op" | "input" | "name" | "ship"),
        }
    }
}
