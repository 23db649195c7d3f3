ghost use Rattle.std.specs.Prelude.{◌≡◌, [], map, IfOk};
ghost use Rattle.std.specs.List.{slice_index_or};
ghost use Rattle.part_files.specs.Parts.{part_file, HasCell};
ghost use Rattle.part_files.specs.Sources.{Told, cells_at};

use crate::cell_place::CellPlace;
use crate::part_header::cell_places;
use crate::reading::bytes_at;
use crate::source::Source;
use folder_files::FileError;
use row_core::Bytes;
use std::alloc::Global;
use std::marker::Model;

/// The file of a part and where its cells stand in it. Contracts see it as its bytes, where they are told.
#[derive(Drop)]
pub struct PartFile<S: Source + Drop> {
    source: S,
    edges: Vec<Vec<CellPlace>>,
}

impl<S: Source + Drop> Model for PartFile<S> {
    ghost use Rattle.std.specs.Prelude.{◌≡◌, ℕ, List, Option, map};
    ghost use Rattle.part_files.specs.Parts.{part_file};
    ghost use Rattle.part_files.specs.Sources.{Told, cells_at};

    ghost Value = { Option (List ℕ) };

    ghost view = { λ part. S.told part.source };

    ghost invariant = { λ part. Told (S.told part.source)
        (λ bytes. bytes ≡ part_file (map (λ edge. cells_at bytes edge.items) part.edges.items)) };
}

impl<S: Source + Drop> PartFile<S> {
    /// Reads where the cells stand, and none of them. A source that has not the form of a part's file, up
    /// to its end, is refused.
    pub fn open(alloc: Global, source: S) -> Result<Self, FileError>
        ensures { IfOk result (λ part. part ≡ S.told source) }
    {
        let edges = cell_places(alloc, &source)?;
        Ok(PartFile { source, edges })
    }

    /// The bytes of a cell; none where the part has no such edge or cell. No other cell is read.
    pub fn cell(&self, alloc: Global, edge: u32, cell: u32) -> Result<Bytes, FileError>
        ensures { IfOk result (λ found. Told self.now (λ bytes. HasCell bytes edge cell found)) }
    {
        cell_bytes(alloc, &self.source, self.edges.as_slice(), edge, cell)
    }
}

// The bytes at a cell's place.
fn cell_bytes<S: Source>(
    alloc: Global,
    source: &S,
    edges: &[Vec<CellPlace>],
    edge: u32,
    cell: u32,
) -> Result<Bytes, FileError>
    ensures { IfOk result (λ found. Told (S.told source.now) (λ bytes. found ≡
        slice_index_or (slice_index_or (map (λ e. cells_at bytes e.items) edges.now) edge [])
        cell [])) }
{
    let Some(cells) = edges.get(edge as usize) else {
        return Ok(Bytes::new(alloc));
    };
    match cells.get(cell as usize) {
        Some(place) => Ok(bytes_at(alloc, source, place.at, place.len)?),
        None => Ok(Bytes::new(alloc)),
    }
}
