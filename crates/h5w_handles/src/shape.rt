//! The shape of a dataset.
ghost use Rattle.std.specs.Prelude.{◌≡◌};
ghost use Rattle.h5w_dataset.specs.Described.{described_of};
ghost use Rattle.h5w_handles.specs.Shapes.{flag, shape_told};

use h5w_dataset::Dataset;

/// What a dataset is, as C has it. A flag is 0 or 1.
#[repr(C)]
#[derive(Clone, Copy)]
pub struct H5wShape {
    /// How many rows it has.
    pub rows: u64,
    /// How many columns a row has, 1 in one dimension.
    pub columns: u64,
    /// How many rows a chunk has.
    pub chunk_rows: u64,
    /// How many columns a chunk has, 1 in one dimension.
    pub width: u64,
    /// 1 or 2.
    pub dimensions: u8,
    /// There may be more columns later.
    pub growing: u8,
    /// The bytes of an integer: 1, 2, 4 or 8.
    pub size: u8,
    /// Its most significant byte is the first.
    pub big: u8,
    pub is_signed: u8,
}

/// A flag as a number.
fn flag(is_set: bool) -> u8
    ensures { result ≡ flag is_set }
{
    if is_set { 1 } else { 0 }
}

/// The shape of this dataset.
pub fn shape_told(dataset: &Dataset) -> H5wShape
    ensures { result ≡ shape_told (described_of dataset.now) }
{
    let (chunk_rows, width) = dataset.layout.chunk;
    H5wShape {
        rows: dataset.shape.rows,
        columns: dataset.shape.cols,
        chunk_rows,
        width,
        dimensions: dataset.shape.rank,
        growing: flag(dataset.shape.growing),
        size: dataset.int_type.size,
        big: flag(dataset.int_type.big),
        is_signed: flag(dataset.int_type.signed),
    }
}
