ghost use Rattle.std.specs.Prelude.{◌≡◌};
ghost use Rattle.row_core.specs.Values.{value_cmp};
ghost use Rattle.row_view.specs.Views.{seen};

use row_core::Value;
use std::cmp::Ordering;

/// A value where it stands: in a record, in a row's bytes, or in an expression.
#[derive(Clone, Copy, Debug, Drop)]
pub enum ValueRef<'a> {
    Null,
    Int(i64),
    Text(&'a [u8]),
}

impl<'a> ValueRef<'a> {
    /// The value that stands there.
    pub fn of(value: &'a Value) -> ValueRef<'a>
        ensures { seen result ≡ value.now }
    {
        match value {
            Value::Null => ValueRef::Null,
            Value::Int(number) => ValueRef::Int(*number),
            Value::Text(text) => ValueRef::Text(text.as_slice()),
        }
    }

    /// Null comes before each Int, and each Int before each Text; numbers go by value and texts by
    /// bytes.
    pub fn cmp(self, other: ValueRef) -> Ordering
        ensures { result ≡ value_cmp (seen self.entry) (seen other.entry) }
    {
        match (self, other) {
            (ValueRef::Null, ValueRef::Null) => Ordering::Equal,
            (ValueRef::Null, _) => Ordering::Less,
            (ValueRef::Int(_), ValueRef::Null) => Ordering::Greater,
            (ValueRef::Int(a), ValueRef::Int(b)) => a.cmp(&b),
            (ValueRef::Int(_), ValueRef::Text(_)) => Ordering::Less,
            (ValueRef::Text(a), ValueRef::Text(b)) => a.cmp(b),
            (ValueRef::Text(_), _) => Ordering::Greater,
        }
    }
}
