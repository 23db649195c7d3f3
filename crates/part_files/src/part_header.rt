ghost use Rattle.std.specs.Prelude.{◌≡◌, ◌+◌, ◌≤◌, length, map, IfOk, OnOk};
ghost use Rattle.std.specs.Int.{w32, w64, to_be_bytes};
ghost use Rattle.std.specs.List.{flat_map};
ghost use Rattle.part_files.specs.Parts.{cell_file, edge_file, part_file};
ghost use Rattle.part_files.specs.Sources.{Told, Stands, bytes_from, cells_at};

use crate::cell_place::CellPlace;
use crate::source::Source;
use folder_files::FileError;
use std::alloc::Global;

/// Where the cells of a part's file stand, edge by edge. A file that has not the form of a part's, up to
/// its end, is refused.
pub fn cell_places<S: Source>(alloc: Global, source: &S) -> Result<Vec<Vec<CellPlace>>, FileError>
    ensures form { IfOk result (λ edges. Told (S.told source.now)
        (λ bytes. bytes ≡ part_file (map (λ edge. cells_at bytes edge.items) edges.items))) }
{
    let mut header = PartHeader {
        at: 0,
        end: source.size()?,
    };
    let count = header.count(source)?;
    let edges = header.edges(alloc, source, count)?;
    if header.at == header.end {
        Ok(edges)
    } else {
        Err(FileError::Failed)
    }
}

// The numbers between the cells of a part's file, read one after another, and none of its cells.
#[derive(Drop)]
struct PartHeader {
    at: u64,
    end: u64,
}

impl PartHeader {
    fn edges<S: Source>(
        &mut self,
        alloc: Global,
        source: &S,
        count: u32,
    ) -> Result<Vec<Vec<CellPlace>>, FileError>
        requires end { Told (S.told source.now) (λ bytes. self.old.end ≡ length bytes) }
        ensures end { self.new.end ≡ self.old.end }
        ensures count { IfOk result (λ edges. length edges.items ≡ count) }
        ensures stands { IfOk result (λ edges. Told (S.told source.now) (λ bytes.
            Stands bytes self.old.at
            (flat_map edge_file (map (λ edge. cells_at bytes edge.items) edges.items))
            self.new.at)) }
    {
        let mut edges = Vec::new(alloc);
        for _ in 0..count {
            edges.push(self.edge(alloc, source)?)?;
        }
        Ok(edges)
    }

    fn edge<S: Source>(&mut self, alloc: Global, source: &S) -> Result<Vec<CellPlace>, FileError>
        requires end { Told (S.told source.now) (λ bytes. self.old.end ≡ length bytes) }
        ensures end { self.new.end ≡ self.old.end }
        ensures stands { IfOk result (λ cells. Told (S.told source.now) (λ bytes.
            Stands bytes self.old.at (edge_file (cells_at bytes cells.items)) self.new.at)) }
    {
        let count = self.count(source)?;
        self.cells(alloc, source, count)
    }

    fn cells<S: Source>(
        &mut self,
        alloc: Global,
        source: &S,
        count: u32,
    ) -> Result<Vec<CellPlace>, FileError>
        requires end { Told (S.told source.now) (λ bytes. self.old.end ≡ length bytes) }
        ensures end { self.new.end ≡ self.old.end }
        ensures count { IfOk result (λ cells. length cells.items ≡ count) }
        ensures stands { IfOk result (λ cells. Told (S.told source.now) (λ bytes.
            Stands bytes self.old.at (flat_map cell_file (cells_at bytes cells.items))
            self.new.at)) }
    {
        let mut cells = Vec::new(alloc);
        for _ in 0..count {
            cells.push(self.cell(source)?)?;
        }
        Ok(cells)
    }

    // The place of a cell, which is passed over.
    fn cell<S: Source>(&mut self, source: &S) -> Result<CellPlace, FileError>
        requires end { Told (S.told source.now) (λ bytes. self.old.end ≡ length bytes) }
        ensures end { self.new.end ≡ self.old.end }
        ensures stands { IfOk result (λ place. Told (S.told source.now) (λ bytes.
            Stands bytes self.old.at (cell_file (bytes_from bytes place.at place.len))
            self.new.at)) }
    {
        let len = self.cell_len(source)?;
        let at = self.at;
        self.pass(len)?;
        Ok(CellPlace { at, len })
    }

    fn count<S: Source>(&mut self, source: &S) -> Result<u32, FileError>
        ensures end { self.new.end ≡ self.old.end }
        ensures stands { IfOk result (λ count. Told (S.told source.now) (λ bytes.
            Stands bytes self.old.at (to_be_bytes w32 count) self.new.at)) }
    {
        let mut number = [0u8; 4];
        source.fill(&mut number, self.at)?;
        self.pass(4)?;
        Ok(count_of(number))
    }

    fn cell_len<S: Source>(&mut self, source: &S) -> Result<u64, FileError>
        ensures end { self.new.end ≡ self.old.end }
        ensures stands { IfOk result (λ len. Told (S.told source.now) (λ bytes.
            Stands bytes self.old.at (to_be_bytes w64 len) self.new.at)) }
    {
        let mut number = [0u8; 8];
        source.fill(&mut number, self.at)?;
        self.pass(8)?;
        Ok(len_of(number))
    }

    // Goes on by so many bytes, if the file has them.
    fn pass(&mut self, len: u64) -> Result<(), FileError>
        ensures end { self.new.end ≡ self.old.end }
        ensures at { OnOk result (self.new.at ≡ self.old.at + len) }
        ensures within { OnOk result (self.new.at ≤ self.new.end) }
    {
        match self.at.checked_add(len) {
            Some(at) if at <= self.end => {
                self.at = at;
                Ok(())
            }
            _ => Err(FileError::Failed),
        }
    }
}

fn count_of(bytes: [u8; 4]) -> u32
    ensures { to_be_bytes w32 result ≡ bytes }
{
    u32::from_be_bytes(bytes)
}

fn len_of(bytes: [u8; 8]) -> u64
    ensures { to_be_bytes w64 result ≡ bytes }
{
    u64::from_be_bytes(bytes)
}
