ghost use Rattle.std.specs.Prelude.{◌≡◌, [], ◌∷◌, length, nat_lt, pos, IfOk, if◌then◌else◌};
ghost use Rattle.row_core.specs.Values.{int_value};
ghost use Rattle.plan_model.specs.Operators.{numbers_of, whole_sum, lesser_value, greater_value};
ghost use Rattle.row_groups.specs.Accumulators.{accumulator_of, finish, with_value};
ghost use Rattle.row_view.specs.Views.{seen};

use plan_model::Agg;
use row_core::{Bytes, NoMemory, Value};
use row_view::ValueRef;
use std::alloc::{AllocError, Global};

/// The state of an aggregate over some rows.
#[derive(Drop)]
pub enum Accumulator {
    Counted(u64),
    Summed { any: bool, total: i128 },
    Least(Value),
    Greatest(Value),
}

impl Accumulator {
    /// The state over no row.
    pub fn new(agg: Agg) -> Accumulator
        ensures { result ≡ accumulator_of [] agg }
    {
        match agg {
            Agg::Count => Accumulator::Counted(0),
            Agg::Sum(_) => Accumulator::Summed {
                any: false,
                total: 0,
            },
            Agg::Min(_) => Accumulator::Least(Value::Null),
            Agg::Max(_) => Accumulator::Greatest(Value::Null),
        }
    }

    /// The state over a row more, of which the aggregate takes this value. Fails where a count leaves
    /// 64 bits or a sum 128, and for want of memory.
    pub fn with_value(self, alloc: Global, value: ValueRef) -> Result<Accumulator, NoMemory>
        ensures { IfOk result (λ after. after ≡ with_value self (seen value.entry)) }
    {
        match self {
            Accumulator::Counted(rows) => {
                let rows = rows.checked_add(1).ok_or(AllocError)?;
                Ok(Accumulator::Counted(rows))
            }
            Accumulator::Summed { any, total } => {
                let total = total.checked_add(number(value)).ok_or(AllocError)?;
                Ok(Accumulator::Summed {
                    any: any || is_number(value),
                    total,
                })
            }
            Accumulator::Least(least) => Ok(Accumulator::Least(lesser(alloc, least, value)?)),
            Accumulator::Greatest(greatest) => {
                Ok(Accumulator::Greatest(greater(alloc, greatest, value)?))
            }
        }
    }

    /// The aggregate's value: Null where a count or a sum leaves 64 bits, and the sum of no number.
    pub fn finish(&self) -> ValueRef<'_>
        ensures { seen result ≡ finish self.now }
    {
        match self {
            Accumulator::Counted(rows) => count(*rows),
            Accumulator::Summed { any, total } => {
                if *any { whole(*total) } else { ValueRef::Null }
            }
            Accumulator::Least(value) | Accumulator::Greatest(value) => ValueRef::of(value),
        }
    }
}

// The number, or 0 where the value is none.
fn number(value: ValueRef) -> i128
    ensures { result ≡ whole_sum (numbers_of (seen value.entry ∷ [])) }
{
    match value {
        ValueRef::Int(number) => i128::from(number),
        _ => 0,
    }
}

fn is_number(value: ValueRef) -> bool
    ensures { result ≡ nat_lt 0 (length (numbers_of (seen value.entry ∷ []))) }
{
    matches!(value, ValueRef::Int(_))
}

// The number, or Null where it has more than 64 bits.
fn count<'a>(rows: u64) -> ValueRef<'a>
    ensures { seen result ≡ int_value (pos rows) }
{
    match i64::try_from(rows) {
        Ok(rows) => ValueRef::Int(rows),
        Err(_) => ValueRef::Null,
    }
}

// The number, or Null where it has more than 64 bits.
fn whole<'a>(number: i128) -> ValueRef<'a>
    ensures { seen result ≡ int_value number }
{
    match i64::try_from(number) {
        Ok(number) => ValueRef::Int(number),
        Err(_) => ValueRef::Null,
    }
}

// The lesser of the two, copied only where it is the second.
fn lesser(alloc: Global, least: Value, value: ValueRef) -> Result<Value, NoMemory>
    ensures { IfOk result (λ made. made ≡ lesser_value least (seen value.entry)) }
{
    if is_lesser(ValueRef::of(&least), value) {
        return owned(alloc, value);
    }
    Ok(least)
}

// Whether the second is the lesser.
fn is_lesser(a: ValueRef, b: ValueRef) -> bool
    ensures { lesser_value (seen a.entry) (seen b.entry)
        ≡ (if result then seen b.entry else seen a.entry) }
{
    match (a, b) {
        (ValueRef::Null, _) => true,
        (_, ValueRef::Null) => false,
        (first, second) => second.cmp(first).is_lt(),
    }
}

// The greater of the two, copied only where it is the second.
fn greater(alloc: Global, greatest: Value, value: ValueRef) -> Result<Value, NoMemory>
    ensures { IfOk result (λ made. made ≡ greater_value greatest (seen value.entry)) }
{
    if ValueRef::of(&greatest).cmp(value).is_lt() {
        return owned(alloc, value);
    }
    Ok(greatest)
}

// The value that is seen, as one of its own.
fn owned(alloc: Global, value: ValueRef) -> Result<Value, NoMemory>
    ensures { IfOk result (λ made. made ≡ seen value.entry) }
{
    match value {
        ValueRef::Null => Ok(Value::Null),
        ValueRef::Int(number) => Ok(Value::Int(number)),
        ValueRef::Text(text) => Ok(Value::Text(Bytes::from_slice(alloc, text)?)),
    }
}
