//! The blocks in place of a dataset in a packed file: where they stand, and the bytes of its header.
ghost use Rattle.std.specs.Prelude.{◌≡◌, ◌+◌, ◌^◌, ◌<◌, ◌≤◌, length, IfOk};
ghost use Rattle.h5w_model.specs.Tables.{format_limits, limit_of, needed};
ghost use Rattle.h5w_chunks.specs.Grids.{IsGrid, dataset_of};
ghost use Rattle.h5w_step_laws.specs.Spelled.{IsSpellable, spelled_header};
ghost use Rattle.h5w_packing_laws.specs.Packing.{IsLaidOut};
ghost use Rattle.h5w_packing.specs.Plans.{SameDataset, front_size};

use h5w_bytes::UNDEFINED;
use h5w_chunks::Grid;
use h5w_creation::{ARRAY_LEN, dataset_header, index_len};
use h5w_layout::Layout;
use h5w_model::{OutOfMemory, Piece};
use h5w_types::Shape;
use std::alloc::Global;

/// The header of a dataset in a packed file, and where its blocks in place stand.
#[derive(Drop)]
pub struct Front {
    /// The dataset, with the address of its index in this file.
    pub grid: Grid,
    pub header: Piece,
    /// Where the header stands.
    pub place: u64,
    /// Where the index block of an array stands.
    pub block: u64,
    /// Where the blocks in place end.
    pub end: u64,
}

/// A shape of these sizes, which are numbers of 64 bits.
fn shape_with(rank: u8, rows: u64, cols: u64, growing: bool) -> Shape
    ensures same { result ≡ record { rank = rank; rows = rows; cols = cols; growing = growing } }
    ensures rows { result.rows < 2 ^ 64 }
    ensures cols { result.cols < 2 ^ 64 }
{
    Shape {
        rank,
        rows,
        cols,
        growing,
    }
}

/// The same dataset, with its index at this address. The address is the last of the layout message.
fn with_index(grid: &Grid, address: u64) -> Grid
    requires { IsGrid grid.now }
    ensures grid { IsGrid result }
    ensures spellable { IsSpellable (dataset_of result) }
    ensures address { (dataset_of result).layout.address ≡ address }
    ensures same { SameDataset (dataset_of grid.now) (dataset_of result) }
{
    let mut bytes = [0; 44];
    let shape = &grid.shape;
    let len = grid.layout.encode(&grid.shape, &grid.int_type, &mut bytes);
    Grid {
        shape: shape_with(shape.rank, shape.rows, shape.cols, shape.growing),
        int_type: grid.int_type,
        fill: grid.fill,
        layout: Layout {
            chunk: grid.layout.chunk,
            index: grid.layout.index,
            address,
            at: len - 8,
        },
    }
}

/// The dataset header. It is as long whatever the address of the index is.
fn spelled(alloc: Global, grid: &Grid) -> Result<Piece, OutOfMemory>
    requires grid { IsGrid grid.now }
    requires spellable { IsSpellable (dataset_of grid.now) }
    ensures bytes { IfOk result (λ p. p ≡ spelled_header (dataset_of grid.now)) }
    ensures short { IfOk result (λ p. length p ≤ 145) }
{
    dataset_header(alloc, grid)
}

/// How many bytes the dataset header and the index's blocks in place take. They are as long whatever the addresses in them are.
pub fn front_len(alloc: Global, grid: &Grid) -> Result<u64, OutOfMemory>
    requires { IsGrid grid.now }
    ensures exact { IfOk result (λ n. n ≡ front_size (dataset_of grid.now)) }
    ensures short { IfOk result (λ n. n ≤ 515) }
{
    let header = spelled(alloc, &with_index(grid, UNDEFINED))?;
    Ok(header.len() as u64 + index_len(grid.layout.index))
}

/// The blocks in place of this dataset, whose header stands at `place`.
pub fn front_at(alloc: Global, grid: &Grid, place: u64) -> Result<Front, OutOfMemory>
    requires grid { IsGrid grid.now }
    requires few { needed (dataset_of grid.now) ≤ limit_of format_limits (dataset_of grid.now).layout.index }
    requires behind { 48 ≤ place }
    requires small { place + front_size (dataset_of grid.now) ≤ 8192 }
    ensures grid { IfOk result (λ f. IsGrid f.grid) }
    ensures same { IfOk result (λ f. SameDataset (dataset_of grid.now) (dataset_of f.grid)) }
    ensures laid { IfOk result (λ f. IsLaidOut (dataset_of f.grid) f.place f.block f.end) }
    ensures place { IfOk result (λ f. f.place ≡ place) }
    ensures end { IfOk result (λ f. f.end ≡ place + front_size (dataset_of grid.now)) }
    ensures header { IfOk result (λ f. f.header ≡ spelled_header (dataset_of f.grid)) }
{
    let end = place + front_len(alloc, grid)?;
    let index = end - index_len(grid.layout.index);
    let grid = with_index(grid, index);
    Ok(Front {
        grid,
        header: spelled(alloc, &grid)?,
        place,
        block: index + ARRAY_LEN,
        end,
    })
}
