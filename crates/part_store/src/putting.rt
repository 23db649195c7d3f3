ghost use Rattle.std.specs.Prelude.{◌≡◌, ◌≢◌, ◌⊎◌, ℕ, List, [], ◌∷◌, ◌++◌, IsTrue, IsErrOf, OnOk};
ghost use Rattle.estate.specs.declared.part_name.PartName.{PartName as Name};
ghost use Rattle.estate.specs.Holding.{StoredPart, IsFresh};
ghost use Rattle.estate.specs.Parts.{cell_of};
ghost use Rattle.estate.specs.Changes.{Stays, Leads, Puts, HasPut, HasNotPut, ShelfRose};
ghost use Rattle.part_store.specs.Answers.{StoreSteady, IsPutAnswer};
ghost use Rattle.part_store.specs.Cells.{stored, cell_in, Lands};

use crate::{Part, StoreError};
use estate::Estate;

/// Puts a part on the shelf. Of the errors it answers `ShelfFault` and `NoMemory` alone.
pub fn put<E: Estate>(estate: &mut E, part: &Part) -> Result<(), StoreError>
    requires { IsTrue (E.world estate.old).told →
        IsFresh part.now.name (E.world estate.old).holding.ever }

    // each image since the start is one of the start, alone or with the part
    ensures adds { Leads (Puts (stored part.now)) (E.world estate.old) (E.world estate.new) }

    // once it is put, it is held, and each image has it
    ensures put { OnOk result (IsTrue (E.world estate.old).told →
        HasPut (stored part.now) (E.world estate.old).holding (E.world estate.new).holding) }
    ensures lands { OnOk result (IsTrue (E.world estate.old).told →
        Lands (stored part.now) (E.world estate.old) (E.world estate.new)) }

    // after a fault it stands whole and is held, or is absent
    ensures failed { IsErrOf result StoreError.ShelfFault → IsTrue (E.world estate.old).told →
        HasPut (stored part.now) (E.world estate.old).holding (E.world estate.new).holding
        ⊎ HasNotPut (stored part.now) (E.world estate.old).holding (E.world estate.new).holding }
    ensures memory { IsErrOf result StoreError.NoMemory →
        Leads Stays (E.world estate.old) (E.world estate.new) }

    ensures form { IsPutAnswer result }
    ensures fault { IsErrOf result StoreError.ShelfFault →
        ShelfRose (E.world estate.old) (E.world estate.new) }
    ensures steady { StoreSteady (E.world estate.old) (E.world estate.new) result }
{
    estate.shelf_put(part.name, &part.edges)?;
    Ok(())
}

/// A part that is put reads as it was given, and leaves the cells of the others alone.
pub fn put_part_stands()
    ensures own { (part : StoredPart) (ever : List StoredPart) (edge cell : ℕ)
        → IsFresh part.name ever
        → cell_of part.name edge cell (ever ++ part ∷ []) ≡ cell_in part.edges edge cell }
    ensures others { (part : StoredPart) (ever : List StoredPart) (name : Name) (edge cell : ℕ)
        → name ≢ part.name
        → cell_of name edge cell (ever ++ part ∷ []) ≡ cell_of name edge cell ever }
{}
