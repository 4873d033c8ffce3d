//! The index of a new file: without chunks, and the pieces of its blocks in place.
ghost use Rattle.std.specs.Prelude.{◌≡◌, ◌≢◌, ◌+◌, ◌<◌, ◌^◌, ◌++◌, ◌∷◌, [], IfOk, OnOk};
ghost use Rattle.h5w_model.specs.Arrays.{eahd_bytes, eaib_bytes};
ghost use Rattle.h5w_model.specs.Trees.{bthd_bytes};
ghost use Rattle.h5w_model.specs.declared.cell.IndexKind.TheVariants.{Array};
ghost use Rattle.h5w_array_laws.specs.ArrayStores.{IsCreated};
ghost use Rattle.h5w_creation_laws.specs.CreatedFiles.{empty_array, empty_index_block, empty_tree};
ghost use Rattle.h5w_index.specs.Held.{view_of};
ghost use Rattle.h5w_index.specs.Views.{IsSound};
ghost use Rattle.h5w_creation.specs.Made.{IsNewIndex, index_writes};

use h5w_bt::Bthd;
use h5w_bytes::UNDEFINED;
use h5w_chunks::IndexKind;
use h5w_ea_index::ArrayIndex;
use h5w_index::Index;
use h5w_model::{OutOfMemory, Piece, Write};
use std::alloc::Global;

/// The write of the header of an array without chunks, which stands at `header` and whose index block stands at `block`.
pub fn array_header(index: &ArrayIndex, header: u64, block: u64) -> Write
    requires { IsCreated header block index.now }
    ensures { result ≡ record { at = header; piece = eahd_bytes (empty_array block) } }
{
    Write {
        at: header,
        piece: Piece::of(index.header()),
    }
}

/// The write of the index block of an array without chunks, which stands at `block` and whose header stands at `header`.
pub fn index_block(index: &ArrayIndex, header: u64, block: u64) -> Write
    requires { IsCreated header block index.now }
    ensures { result ≡ record { at = block; piece = eaib_bytes (empty_index_block header) } }
{
    Write {
        at: block,
        piece: Piece::of(index.index_block()),
    }
}

/// The write of the header of a tree without records, which stands at `header`.
pub fn tree_header(header: u64) -> Write
    ensures { result ≡ record { at = header; piece = bthd_bytes empty_tree } }
{
    let mut bytes = [0; Bthd::LEN];
    let empty = Bthd {
        depth: 0,
        root: UNDEFINED,
        records: 0,
        total: 0,
    };
    empty.encode(&mut bytes);
    Write {
        at: header,
        piece: Piece::of(&bytes),
    }
}

/// An index without chunks, whose header stands at `header` and, where it is an array, its index block at `block`. The pieces that write
/// its blocks in place come behind the others.
pub fn new_index(
    alloc: Global,
    kind: IndexKind,
    header: u64,
    block: u64,
    writes: &mut Vec<Write>,
) -> Result<Index, OutOfMemory>
    requires header_ends { header + 72 < 2 ^ 64 }
    requires block_ends { kind ≡ Array → block + 298 < 2 ^ 64 }
    ensures sound { IfOk result (λ i. IsSound (view_of i)) }
    ensures new { IfOk result (λ i. IsNewIndex kind header block (view_of i)) }
    ensures writes { OnOk result (writes.new.items ≡ writes.old.items ++ index_writes kind header block) }
{
    match kind {
        IndexKind::Array => {
            let index = ArrayIndex::new(alloc, header, block)?;
            writes.push(index_block(&index, header, block))?;
            writes.push(array_header(&index, header, block))?;
            Ok(Index::Array(index))
        }
        IndexKind::Tree => {
            writes.push(tree_header(header))?;
            Ok(Index::new_tree(alloc, header))
        }
    }
}
