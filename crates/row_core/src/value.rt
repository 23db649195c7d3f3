ghost use Rattle.std.specs.Prelude.{◌≡◌, IfOk};
ghost use Rattle.row_core.specs.Values.{value_cmp};

use crate::{Bytes, NoMemory};
use std::alloc::Global;
use std::cmp::Ordering;

/// The greatest length of a text, in bytes. A longer one is read and computed as Null.
pub const TEXT_LIMIT: usize = 16_777_216;

/// One value of a row.
#[derive(Debug, Drop)]
pub enum Value {
    Null,
    Int(i64),
    Text(Bytes),
}

impl Value {
    pub fn copy(&self, alloc: Global) -> Result<Value, NoMemory>
        ensures { IfOk result (λ copy. copy ≡ self.now) }
    {
        match self {
            Value::Null => Ok(Value::Null),
            Value::Int(number) => Ok(Value::Int(*number)),
            Value::Text(text) => Ok(Value::Text(Bytes::from_slice(alloc, text.as_slice())?)),
        }
    }

    /// Null comes before each Int, and each Int before each Text; numbers go by value and texts by
    /// bytes.
    pub fn cmp(&self, other: &Value) -> Ordering
        ensures { result ≡ value_cmp self.now other.now }
    {
        match (self, other) {
            (Value::Null, Value::Null) => Ordering::Equal,
            (Value::Null, _) => Ordering::Less,
            (Value::Int(_), Value::Null) => Ordering::Greater,
            (Value::Int(a), Value::Int(b)) => a.cmp(b),
            (Value::Int(_), Value::Text(_)) => Ordering::Less,
            (Value::Text(a), Value::Text(b)) => a.as_slice().cmp(b.as_slice()),
            (Value::Text(_), _) => Ordering::Greater,
        }
    }
}
