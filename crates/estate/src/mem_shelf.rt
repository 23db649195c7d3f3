ghost use Rattle.std.specs.Prelude.{◌≡◌, ◌≢◌, ◌↔◌, ◌<◌, ◌+◌, [], ◌∷◌, ◌++◌, true, false, not, ◌&&◌, nat_le, if◌then◌else◌, All, AllPairs, Contains, map, None, Some, vec_len, vec_capacity, slice_index_or, IfOk, OnOk, OnErr, MatchOption};
ghost use Rattle.std.specs.List.{filter};
ghost use Rattle.estate.specs.declared.part_name.PartName.{PartName as Name};
ghost use Rattle.estate.specs.Parts.{cell_of, is_same_name, IsAscending};
ghost use Rattle.estate.specs.Places.{SamePlaces};
ghost use Rattle.estate.specs.Shelf.{IsPlaced, Loses, NotesPart, held_in, stored, recalled, recalled_parts};

use crate::places::Places;
use crate::shelved::Shelved;
use crate::{Edge, Names, PartName};
use row_core::{Bytes, NoMemory};
use std::alloc::Global;

/// A shelf in memory. It keeps when each part was put and lost, so that a crash may be tried at
/// each moment.
#[derive(Debug, Drop)]
pub struct MemShelf {
    pub parts: Vec<Shelved>,
    // The places of the parts that are held.
    places: Places,
    ghost distinct: { AllPairs (λ p q. p.name ≢ q.name) parts.items },
    ghost placed: { IsPlaced places parts.items },
}

impl MemShelf {
    pub fn new(alloc: Global) -> Self
        ensures { result.parts.items ≡ [] }
    {
        MemShelf {
            parts: Vec::new(alloc),
            places: Places::new(alloc),
        }
    }

    /// Adds a part, which may be lost already.
    pub fn add(&mut self, part: Shelved) -> Result<(), NoMemory>
        requires { All (λ other. other.name ≢ part.name) self.old.parts.items }
        ensures ok { OnOk result (self.new.parts.items ≡ self.old.parts.items ++ part ∷ []) }
        ensures err { OnErr result (self.new.parts.items ≡ self.old.parts.items) }
    {
        add_placed(&mut self.parts, &mut self.places, part)
    }

    /// Drops a part, and says whether it was held. Takes no memory.
    pub fn lose(&mut self, name: PartName, since: u64) -> bool
        ensures lost { result ≡ true → Loses name since self.old.parts.items self.new.parts.items }
        ensures same { result ≡ false → self.new.parts.items ≡ self.old.parts.items }
        ensures gone { ¬ (Contains (held_in self.new.parts.items) name) }
        ensures others { (other : Name) → other ≢ name →
            Contains (held_in self.old.parts.items) other →
            Contains (held_in self.new.parts.items) other }
    {
        let Some(place) = self.places.get(name) else {
            return false;
        };
        let part = &mut self.parts[place];
        part.lost = Some(since);
        self.places.remove(name);
        true
    }

    /// A cell of a part that is held.
    pub fn cell(
        &self,
        alloc: Global,
        name: PartName,
        edge: u32,
        cell: u32,
    ) -> Result<Option<Bytes>, NoMemory>
        ensures { IfOk result (λ found. MatchOption found
            (¬ (Contains (held_in self.now.parts.items) name))
            (λ bytes. Contains (held_in self.now.parts.items) name
            × (bytes ≡ cell_of name edge cell (map stored self.now.parts.items)))) }
    {
        let Some(place) = self.places.get(name) else {
            return Ok(None);
        };
        let edges = self.parts[place].edges.as_slice();
        Ok(Some(copied_cell(alloc, edges, edge as usize, cell as usize)?))
    }

    /// The names of the parts that are held, in ascending order.
    pub fn names(&self, alloc: Global) -> Result<Names, NoMemory>
        ensures ascending { IfOk result IsAscending }
        ensures names { IfOk result (λ names. (name : Name) →
            Contains names name ↔ Contains (held_in self.now.parts.items) name) }
    {
        let names = self.places.names(alloc)?;
        Ok(names)
    }

    /// The shelf as it was at a moment.
    pub fn crash(&self, alloc: Global, moment: u64) -> Result<MemShelf, NoMemory>
        ensures { IfOk result (λ shelf.
            shelf.parts.items ≡ recalled_parts moment self.now.parts.items) }
    {
        let mut made = MemShelf::new(alloc);
        for part in &self.parts {
            made.recall(alloc, part, moment)?;
        }
        Ok(made)
    }

    // Adds a part as it was at a moment, if it stood then.
    fn recall(&mut self, alloc: Global, part: &Shelved, moment: u64) -> Result<(), NoMemory>
        requires { All (λ other. other.name ≢ part.now.name) self.old.parts.items }
        ensures { OnOk result (self.new.parts.items ≡ self.old.parts.items
            ++ (if nat_le part.now.since moment then recalled moment part.now ∷ [] else [])) }
    {
        if part.since > moment {
            return Ok(());
        }
        self.add(part.copy_at(alloc, moment)?)
    }
}

// A cell, or no bytes where it is lacking.
fn copied_cell(alloc: Global, edges: &[Edge], edge: usize, cell: usize) -> Result<Bytes, NoMemory>
    ensures { IfOk result (λ bytes. bytes
        ≡ slice_index_or (slice_index_or edges.now edge []) cell []) }
{
    let Some(edge) = edges.get(edge) else {
        return Ok(Bytes::new(alloc));
    };
    match edge.as_slice().get(cell) {
        Some(bytes) => Bytes::from_slice(alloc, bytes.as_slice()),
        None => Ok(Bytes::new(alloc)),
    }
}

fn add_placed(parts: &mut Vec<Shelved>, places: &mut Places, part: Shelved) -> Result<(), NoMemory>
    requires placed { IsPlaced places.old parts.old.items }
    requires distinct { AllPairs (λ p q. p.name ≢ q.name) parts.old.items }
    requires fresh { All (λ other. other.name ≢ part.name) parts.old.items }
    ensures ok { OnOk result (parts.new.items ≡ parts.old.items ++ part ∷ []) }
    ensures err { OnErr result (parts.new.items ≡ parts.old.items) }
    ensures placed { IsPlaced places.new parts.new.items }
    ensures distinct { AllPairs (λ p q. p.name ≢ q.name) parts.new.items }
{
    parts.reserve(1)?;
    let place = parts.as_slice().len();
    note(places, &part, place)?;
    parts.push_reserved(part);
    Ok(())
}

// Notes the place of a part that is held.
fn note(places: &mut Places, part: &Shelved, place: usize) -> Result<(), NoMemory>
    ensures ok { OnOk result (NotesPart part.now place places.old places.new) }
    ensures err { OnErr result (SamePlaces places.old places.new) }
{
    match part.lost {
        None => places.insert(part.name, place),
        Some(_) => Ok(()),
    }
}
