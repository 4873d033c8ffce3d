//! By what a file is created, and where its blocks stand.
ghost use Rattle.std.specs.Prelude.{◌≡◌, ◌+◌, ◌*◌, ◌≤◌, ◌^◌, ◌<◌, length};
ghost use Rattle.h5w_model.specs.Messages.{index_bytes, layout_width};
ghost use Rattle.h5w_types.specs.Fields.{int_type_of};
ghost use Rattle.h5w_layout.specs.Layouts.{fill_of};
ghost use Rattle.h5w_chunks.specs.Grids.{IsGrid, dataset_of};
ghost use Rattle.h5w_creation_laws.specs.CreatedFiles as files;
ghost use Rattle.h5w_creation.specs.Forms.{IsForm, created_by};

use h5w_bt::Bthd;
use h5w_bytes::width_of;
use h5w_chunks::{Fill, Grid, IndexKind, IntType, Layout, Shape};
use h5w_ea::{Eahd, Eaib};

/// By what a file is created, beside its dataset's name.
#[derive(Clone, Copy)]
pub struct Form {
    pub int_type: IntType,
    /// The cell of the fill.
    pub fill: Fill,
    /// The rows and the columns of a chunk, 1 to 65,536 each, of 16,777,216 bytes at most.
    pub chunk: (u64, u64),
    /// How many dimensions, 1 or 2.
    pub rank: u8,
    /// The columns of a row, 1 to 65,536. In one dimension a row has one, and so has a chunk.
    pub columns: u64,
    /// The second dimension is there and has no maximum.
    pub growing: bool,
    /// A tree where the second dimension grows, else an array.
    pub index: IndexKind,
}

/// Where the blocks of a new file stand behind the superblock and the root header, and where it ends.
#[derive(Clone, Copy)]
pub struct Sites {
    /// The dataset header.
    pub header: u64,
    /// The header of the index.
    pub index: u64,
    /// The index block of an array, where that is the index.
    pub block: u64,
    pub end: u64,
    /// Where the index's address stands in the data of the layout message.
    pub at: usize,
}

/// Where the root header stands, behind the superblock.
pub const ROOT_PLACE: u64 = h5w_super::LEN as u64;

/// How many bytes the root header has beside the dataset's name.
const ROOT_LEN: u64 = 54;

/// How many bytes an array's header has.
pub const ARRAY_LEN: u64 = Eahd::LEN as u64;

/// How many bytes an array's index block has.
pub const BLOCK_LEN: u64 = Eaib::LEN as u64;

/// How many bytes a tree's header has.
pub const TREE_LEN: u64 = Bthd::LEN as u64;

/// How many bytes the data of the fill value message have.
fn fill_len(form: &Form) -> u64
    requires form { IsForm form.now }
    ensures exact { result ≡ files.fill_len (fill_of form.now.fill).value }
    ensures bound { result ≤ 14 }
{
    match form.fill.value {
        Some(cell) => 6 + u64::from(cell.size),
        None => 2,
    }
}

/// How many bytes the type and the parameters of an index have.
fn parameters_len(index: IndexKind) -> u64
    ensures exact { result ≡ length (index_bytes index) }
    ensures bound { result ≤ 7 }
{
    match index {
        IndexKind::Array => 6,
        IndexKind::Tree => 7,
    }
}

/// How many bytes the data of the layout message have.
fn layout_len(form: &Form) -> u64
    requires form { IsForm form.now }
    ensures exact { result ≡ 5 + (form.now.rank + 1) * layout_width form.now.chunk.0 form.now.chunk.1 form.now.int_type.size + length (index_bytes form.now.index) + 8 }
    ensures low { 8 ≤ result }
    ensures bound { result ≤ 44 }
{
    let (rows, cols) = form.chunk;
    let width = width_of(rows.max(cols.max(u64::from(form.int_type.size)))) as u64;
    5 + (u64::from(form.rank) + 1) * width + parameters_len(form.index) + 8
}

/// How many bytes the data of the dataspace message have.
fn shape_len(form: &Form) -> u64
    requires form { IsForm form.now }
    ensures exact { result ≡ 4 + 16 * form.now.rank }
    ensures bound { result ≤ 36 }
{
    4 + 16 * u64::from(form.rank)
}

/// How many bytes the blocks in place of an index have.
pub fn index_len(index: IndexKind) -> u64
    ensures exact { result ≡ files.index_len index }
    ensures bound { result ≤ 370 }
{
    match index {
        IndexKind::Array => ARRAY_LEN + BLOCK_LEN,
        IndexKind::Tree => TREE_LEN,
    }
}

/// Where the blocks of a new file stand, with a name of so many bytes.
pub fn sites_of(name: &[u8], form: &Form) -> Sites
    requires form { IsForm form.now }
    requires name { length name.now ≤ 64 }
    ensures header { result.header ≡ files.header_place (created_by name.now form.now) }
    ensures index { result.index ≡ files.index_place (created_by name.now form.now) }
    ensures block { result.block ≡ files.block_place (created_by name.now form.now) }
    ensures end { result.end ≡ files.end_of (created_by name.now form.now) }
    ensures at { result.at ≡ (files.layout_of (created_by name.now form.now)).place }
    ensures small { result.index ≤ 400 }
{
    let header = ROOT_PLACE + ROOT_LEN + name.len() as u64;
    let layout = layout_len(form);
    let index = header + (shape_len(form) + fill_len(form) + layout + 39);
    Sites {
        header,
        index,
        block: index + ARRAY_LEN,
        end: index + index_len(form.index),
        at: layout as usize - 8,
    }
}

/// A dataset without rows, whose index has its header there.
pub fn grid_of(name: &[u8], form: &Form, sites: &Sites) -> Grid
    requires form { IsForm form.now }
    requires index { sites.now.index ≡ files.index_place (created_by name.now form.now) }
    requires at { sites.now.at ≡ (files.layout_of (created_by name.now form.now)).place }
    ensures dataset { dataset_of result ≡ files.described_of (created_by name.now form.now) }
    ensures grid { IsGrid result }
{
    Grid {
        shape: Shape {
            rank: form.rank,
            rows: 0,
            cols: form.columns,
            growing: form.growing,
        },
        int_type: form.int_type,
        fill: form.fill,
        layout: Layout {
            chunk: form.chunk,
            index: form.index,
            address: sites.index,
            at: sites.at,
        },
    }
}
