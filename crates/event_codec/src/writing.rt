ghost use Rattle.std.specs.Prelude.{◌≡◌, ◌∷◌, ◌++◌, OnOk};
ghost use Rattle.std.specs.List.{AllByRecursion};
ghost use Rattle.event_codec.specs.Spelling.{counted, IsCounted, AreFit};

use crate::Writable;
use row_core::{Bytes, NoMemory};

/// Writes the number of items, and one item after another.
pub fn put_list<T: Writable>(items: &[T], bytes: &mut Bytes) -> Result<(), NoMemory>
    requires count { IsCounted items.now }
    requires each { AllByRecursion T.short items.now }
    ensures spelled { OnOk result (bytes.new ≡ bytes.old ++ counted T.spell items.now) }
    ensures fits { OnOk result (AreFit T.fits items.now) }
{
    (items.len() as u32).put(bytes)?;
    for item in items {
        item.put(bytes)?;
    }
    Ok(())
}

/// Writes a tag and a field.
pub fn put_one<A: Writable>(tag: u8, field: &A, bytes: &mut Bytes) -> Result<(), NoMemory>
    requires { A.short field.now }
    ensures spelled { OnOk result (bytes.new ≡ bytes.old ++ (tag ∷ A.spell field.now)) }
    ensures fits { OnOk result (A.fits field.now) }
{
    bytes.push(tag)?;
    field.put(bytes)
}

/// Writes a tag and two fields.
pub fn put_two<A: Writable, B: Writable>(
    tag: u8,
    first: &A,
    second: &B,
    bytes: &mut Bytes,
) -> Result<(), NoMemory>
    requires first { A.short first.now }
    requires second { B.short second.now }
    ensures spelled { OnOk result
        (bytes.new ≡ bytes.old ++ (tag ∷ A.spell first.now ++ B.spell second.now)) }
    ensures fits { OnOk result (A.fits first.now × B.fits second.now) }
{
    put_one(tag, first, bytes)?;
    second.put(bytes)
}
