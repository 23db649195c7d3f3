ghost use Rattle.std.specs.Prelude.{◌≡◌, ◌^◌, ◌<◌, ◌≤◌, ◌++◌, length, IfOk, OnOk, IsErrOf};
ghost use Rattle.std.specs.Int.{w32, to_be_bytes};
ghost use Rattle.folder_files.specs.declared.file_error.FileError.TheVariants.{Failed};
ghost use Rattle.part_files.specs.Parts.{cell_file, edge_file, part_file, IsTooMany, IsTooWide};

use estate::Edges;
use folder_files::FileError;
use row_core::{Bytes, NoMemory};
use std::alloc::Global;

/// What the file of a part holds: the number of edges, for each edge the number of its cells, and for
/// each cell its length and its bytes. More edges or cells than four bytes count have no such file.
pub fn part_bytes(alloc: Global, edges: &Edges) -> Result<Bytes, FileError>
    ensures spelled { IfOk result (λ bytes. bytes ≡ part_file edges.now) }
    ensures failed { IsErrOf result Failed → IsTooWide edges.now }
{
    let mut bytes = Bytes::new(alloc);
    add_count(&mut bytes, edges.as_slice().len())?;
    for edge in edges.as_slice() {
        add_edge(&mut bytes, edge.as_slice())?;
    }
    Ok(bytes)
}

fn add_edge(bytes: &mut Bytes, cells: &[Bytes]) -> Result<(), FileError>
    ensures spelled { OnOk result (bytes.new ≡ bytes.old ++ edge_file cells.now) }
    ensures failed { IsErrOf result Failed → IsTooMany cells.now }
{
    add_count(bytes, cells.len())?;
    for cell in cells {
        add_cell(bytes, cell)?;
    }
    Ok(())
}

fn add_cell(bytes: &mut Bytes, cell: &Bytes) -> Result<(), NoMemory>
    ensures spelled { OnOk result (bytes.new ≡ bytes.old ++ cell_file cell.now) }
{
    bytes.extend(&(cell.len() as u64).to_be_bytes())?;
    bytes.extend(cell.as_slice())
}

fn add_count(bytes: &mut Bytes, count: usize) -> Result<(), FileError>
    ensures spelled { OnOk result (bytes.new ≡ bytes.old ++ to_be_bytes w32 count) }
    ensures failed { IsErrOf result Failed → 2 ^ 32 ≤ count }
{
    match u32::try_from(count) {
        Ok(count) => Ok(bytes.extend(&count.to_be_bytes())?),
        Err(_) => Err(FileError::Failed),
    }
}
