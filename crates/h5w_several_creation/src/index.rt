//! The pieces of an index without chunks, wherever it stands.
ghost use Rattle.std.specs.Prelude.{◌≡◌, ◌+◌, ◌<◌, ◌^◌, ◌++◌, OnOk};
ghost use Rattle.h5w_creation.specs.Made.{index_writes};

use h5w_creation::{ARRAY_LEN, IndexKind, array_header, index_block, tree_header};
use h5w_ea_index::ArrayIndex;
use h5w_model::{OutOfMemory, Write};
use std::alloc::Global;

/// Adds the pieces of an index without chunks, whose header stands at `header` and, where it is an array, its index block behind that.
pub fn put_index(
    alloc: Global,
    kind: IndexKind,
    header: u64,
    writes: &mut Vec<Write>,
) -> Result<(), OutOfMemory>
    requires { header + 370 < 2 ^ 64 }
    ensures { OnOk result (writes.new.items ≡ writes.old.items ++ index_writes kind header (header + 72)) }
{
    match kind {
        IndexKind::Array => {
            let block = header + ARRAY_LEN;
            let index = ArrayIndex::new(alloc, header, block)?;
            writes.push(index_block(&index, header, block))?;
            writes.push(array_header(&index, header, block))?;
        }
        IndexKind::Tree => writes.push(tree_header(header))?,
    }
    Ok(())
}
