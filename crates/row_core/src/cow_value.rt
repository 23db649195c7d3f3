ghost use Rattle.std.specs.Prelude.{◌≡◌, IfOk};
ghost use Rattle.row_core.specs.CowValues.{value_in};

use crate::{NoMemory, Value};
use std::alloc::Global;

/// A value at hand: borrowed from the row or the expression that has it, or computed.
#[derive(Drop)]
pub enum CowValue<'a> {
    Borrowed(&'a Value),
    Owned(Value),
}

impl<'a> CowValue<'a> {
    pub fn value(&self) -> &Value
        ensures { result.now ≡ value_in self.now }
    {
        match self {
            CowValue::Borrowed(value) => value,
            CowValue::Owned(value) => value,
        }
    }

    pub fn into_value(self, alloc: Global) -> Result<Value, NoMemory>
        ensures { IfOk result (λ value. value ≡ value_in self.entry) }
    {
        match self {
            CowValue::Borrowed(value) => value.copy(alloc),
            CowValue::Owned(value) => Ok(value),
        }
    }
}
