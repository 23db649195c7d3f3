ghost use Rattle.std.specs.Prelude.{◌≡◌, ◌↔◌, [], ◌∷◌, ◌++◌, length, IsTrue, IfOk, OnOk, OnErr};
ghost use Rattle.row_core.specs.Values.{row_cmp};

use crate::{NoMemory, Value};
use std::alloc::Global;
use std::cmp::Ordering;
use std::marker::Model;

/// A list of values.
#[derive(Debug, Drop)]
pub struct Row {
    values: Vec<Value>,
}

impl Model for Row {
    ghost use Rattle.std.specs.Prelude.{List};
    ghost use Rattle.row_core.specs.declared.value.Value.{Value as OneValue};

    ghost Value = { List OneValue };

    ghost view = { λ r. r.values.items };
}

impl Row {
    pub fn new(alloc: Global) -> Self
        ensures { result ≡ [] }
    {
        Row {
            values: Vec::new(alloc),
        }
    }

    /// No values yet, with room for this many.
    pub fn with_capacity(alloc: Global, capacity: usize) -> Result<Self, NoMemory>
        ensures { IfOk result (λ row. row ≡ []) }
    {
        Ok(Row {
            values: Vec::with_capacity(alloc, capacity)?,
        })
    }

    pub fn from_vec(values: Vec<Value>) -> Self
        ensures { result ≡ values.items }
    {
        Row { values }
    }

    pub fn into_vec(self) -> Vec<Value>
        ensures { result.items ≡ self }
    {
        self.values
    }

    pub fn len(&self) -> usize
        ensures { result ≡ length self.now }
    {
        self.values.len()
    }

    pub fn is_empty(&self) -> bool
        ensures { IsTrue result ↔ (self.now ≡ []) }
    {
        self.values.is_empty()
    }

    pub fn as_slice(&self) -> &[Value]
        ensures { result.now ≡ self.now }
    {
        self.values.as_slice()
    }

    pub fn copy(&self, alloc: Global) -> Result<Row, NoMemory>
        ensures { IfOk result (λ copy. copy ≡ self.now) }
    {
        copy_values(alloc, self.values.as_slice())
    }

    pub fn push(&mut self, value: Value) -> Result<(), NoMemory>
        ensures ok { OnOk result (self.new ≡ self.old ++ value ∷ []) }
        ensures err { OnErr result (self.new ≡ self.old) }
    {
        self.values.push(value)?;
        Ok(())
    }
}

/// By the first values that differ; a row that another begins with comes first.
pub fn cmp_rows(a: &Row, b: &Row) -> Ordering
    ensures { result ≡ row_cmp a.now b.now }
{
    cmp_values(a.as_slice(), b.as_slice())
}

fn cmp_values(a: &[Value], b: &[Value]) -> Ordering
    ensures { result ≡ row_cmp a.now b.now }
{
    for (x, y) in a.iter().zip(b) {
        let order = x.cmp(y);
        if order.is_ne() {
            return order;
        }
    }
    a.len().cmp(&b.len())
}

fn copy_values(alloc: Global, values: &[Value]) -> Result<Row, NoMemory>
    ensures { IfOk result (λ copy. copy ≡ values.now) }
{
    let mut copy = Row::with_capacity(alloc, values.len())?;
    for value in values {
        copy.push(value.copy(alloc)?)?;
    }
    Ok(copy)
}
