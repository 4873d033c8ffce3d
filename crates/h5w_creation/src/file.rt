//! A new file, and the pieces that make it.
ghost use Rattle.std.specs.Prelude.{◌≡◌, ◌∷◌, ◌++◌, [], length, ◌≤◌, vec_capacity, IfOk};
ghost use Rattle.h5w_model.specs.Superblock.{super_bytes};
ghost use Rattle.h5w_chunks.specs.Grids.{IsGrid, dataset_of};
ghost use Rattle.h5w_step_laws.specs.Spelled.{spelled_header};
ghost use Rattle.h5w_index.specs.Held.{view_of};
ghost use Rattle.h5w_index.specs.Views.{IsSound};
ghost use Rattle.h5w_creation_laws.specs.CreatedFiles as files;
ghost use Rattle.h5w_creation.specs.Forms.{IsForm, created_by};
ghost use Rattle.h5w_creation.specs.Made.{IsNewIndex};

use crate::form::{Form, ROOT_PLACE, grid_of, sites_of};
use crate::headers::{dataset_header, root_header};
use crate::index::new_index;
use h5w_chunks::Grid;
use h5w_index::Index;
use h5w_model::{OutOfMemory, Piece, Super, Write};
use std::alloc::Global;

/// A new file: its dataset, its superblock, its dataset header and where that stands, its index without chunks, and the pieces that make
/// it: those of the index, the dataset header, the root header, and last the superblock, by which a reader finds the file.
#[derive(Drop)]
pub struct Creation {
    pub grid: Grid,
    pub root: Super,
    pub place: u64,
    pub header: Piece,
    pub index: Index,
    pub writes: Vec<Write>,
}

/// The superblock of a new file that ends there, with these flags.
pub fn superblock(flags: u8, end: u64) -> Super
    ensures { result ≡ record { version = 3; flags = flags; end = end; root = files.root_place } }
{
    Super {
        version: 3,
        flags,
        end,
        root: ROOT_PLACE,
    }
}

/// The write of a superblock, at the file's begin.
pub fn super_write(root: &Super) -> Write
    requires { root.now.version ≡ 3 }
    ensures { result ≡ record { at = 0; piece = super_bytes root.now } }
{
    Write {
        at: 0,
        piece: Piece::of(&h5w_super::encode(root)),
    }
}

/// The flags of a file that a SWMR writer has open.
pub const OPEN: u8 = 5;

/// A new file whose dataset has this name, of 1 to 64 bytes. The list of its pieces has room for one at least, also once it is cleared.
pub fn create_file(alloc: Global, name: &[u8], form: &Form) -> Result<Creation, OutOfMemory>
    requires form { IsForm form.now }
    requires named { 1 ≤ length name.now }
    requires name_bound { length name.now ≤ 64 }
    ensures grid { IfOk result (λ c. IsGrid c.grid) }
    ensures dataset { IfOk result (λ c. dataset_of c.grid ≡ files.described_of (created_by name.now form.now)) }
    ensures root { IfOk result (λ c. c.root ≡ files.super_of (created_by name.now form.now)) }
    ensures place { IfOk result (λ c. c.place ≡ files.header_place (created_by name.now form.now)) }
    ensures header { IfOk result (λ c. c.header ≡ spelled_header (files.described_of (created_by name.now form.now))) }
    ensures sound { IfOk result (λ c. IsSound (view_of c.index)) }
    ensures index { IfOk result (λ c. IsNewIndex form.now.index (files.index_place (created_by name.now form.now)) (files.block_place (created_by name.now form.now)) (view_of c.index)) }
    ensures writes { IfOk result (λ c. c.writes.items ≡ files.created_writes (created_by name.now form.now)) }
    ensures room { IfOk result (λ c. 1 ≤ vec_capacity c.writes) }
{
    let sites = sites_of(name, form);
    let grid = grid_of(name, form, &sites);
    let header = dataset_header(alloc, &grid)?;
    let root = superblock(OPEN, sites.end);
    let mut writes = Vec::with_capacity(alloc, 5)?;
    let index = new_index(alloc, form.index, sites.index, sites.block, &mut writes)?;
    writes.push(Write {
        at: sites.header,
        piece: Piece::of(header.as_slice()),
    })?;
    writes.push(Write {
        at: ROOT_PLACE,
        piece: root_header(alloc, name, sites.header)?,
    })?;
    writes.push(super_write(&root))?;
    Ok(Creation {
        grid,
        root,
        place: sites.header,
        header,
        index,
        writes,
    })
}
