//! Cells of values, and cells of the fill.
ghost use Rattle.std.specs.Prelude.{◌≡◌, ◌+◌, ◌*◌, ◌<◌, ◌≤◌, ◌^◌, ◌++◌, length, Some, OnOk, IfOk, EachIndex, ℤ, List, ℕ};
ghost use Rattle.std.specs.List.{slice_get};
ghost use Rattle.h5w_chunks.specs.Grids.{FitsType, IsGrid, cells_of, chunk_len, copies, dataset_of, fill_cell, filled_chunk};
ghost use Rattle.h5w_chunks.specs.Integers.{cell_bytes_of};
ghost use Rattle.h5w_types.specs.Fields.{int_type_of};

use crate::grid::Grid;
use h5w_model::OutOfMemory;
use h5w_types::bytes_of;
use std::alloc::Global;

impl Grid {
    /// Adds the cell of a value.
    pub fn put_cell(&self, value: i128, out: &mut Vec<u8>) -> Result<(), OutOfMemory>
        requires grid { IsGrid self.now }
        requires fits { FitsType (dataset_of self.now) value }
        ensures { (bytes : List ℕ) → cell_bytes_of value (int_type_of self.now.int_type) ≡ Some bytes → OnOk result (out.new.items ≡ out.old.items ++ bytes) }
    {
        let cell = bytes_of(value, &self.int_type).unwrap();
        out.extend_from_slice(&cell.bytes[..usize::from(cell.size)])?;
        Ok(())
    }

    /// Adds the cells of some values, one behind the other.
    pub fn put_cells(&self, values: &[i128], out: &mut Vec<u8>) -> Result<(), OutOfMemory>
        requires grid { IsGrid self.now }
        requires fit { (k : ℕ) (v : ℤ) → slice_get values.now k ≡ Some v → FitsType (dataset_of self.now) v }
        ensures { OnOk result (out.new.items ≡ out.old.items ++ cells_of (dataset_of self.now) values.now) }
    {
        for v in values {
            self.put_cell(*v, out)?;
        }
        Ok(())
    }

    /// A chunk whose cells all are the fill.
    pub fn fill_chunk(&self, alloc: Global) -> Result<Vec<u8>, OutOfMemory>
        requires { IsGrid self.now }
        ensures { IfOk result (λ bytes. bytes.items ≡ filled_chunk (dataset_of self.now)) }
    {
        let (rows, cols) = self.layout.chunk;
        let mut bytes = Vec::with_capacity(alloc, self.chunk_len() as usize)?;
        self.put_fill(rows * cols, &mut bytes)?;
        Ok(bytes)
    }

    /// Adds cells of the fill.
    pub(crate) fn put_fill(&self, count: u64, out: &mut Vec<u8>) -> Result<(), OutOfMemory>
        requires grid { IsGrid self.now }
        requires bound { length out.old.items + count * self.now.int_type.size ≤ 2 ^ 32 }
        ensures { OnOk result (out.new.items ≡ out.old.items ++ copies count (fill_cell (dataset_of self.now))) }
    {
        match self.fill.value {
            Some(cell) => put_copies(count, &cell.bytes[..usize::from(cell.size)], out),
            None => {
                out.resize(out.len() + (count * self.size()) as usize, 0)?;
                Ok(())
            }
        }
    }
}

/// Adds some bytes, `count` times.
fn put_copies(count: u64, bytes: &[u8], out: &mut Vec<u8>) -> Result<(), OutOfMemory>
    ensures { OnOk result (out.new.items ≡ out.old.items ++ copies count bytes.now) }
{
    for _ in 0..count {
        out.extend_from_slice(bytes)?;
    }
    Ok(())
}
