ghost use Rattle.std.specs.Prelude.{◌≡◌};
ghost use Rattle.job_json.specs.Members.{is_member_of};

use crate::op_kind::OpKind;

/// Whose members are looked at.
#[derive(Clone, Copy)]
pub enum Object {
    Top,
    Node(OpKind),
}

impl Object {
    /// Whether a member of this name has a meaning.
    pub fn has_member(self, name: &str) -> bool
        ensures { result ≡ is_member_of self name.now }
    {
        match self {
            Object::Top => matches!(name, "job" | "nodes" | "settings"),
            Object::Node(op) => op.has_member(name),
        }
    }
}
