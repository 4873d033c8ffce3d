//! What the blocks of a tree have in common.
ghost use Rattle.std.specs.Prelude.{◌≡◌, ◌+◌, ◌-◌, ◌≤◌, ◌^◌, ◌++◌, ◌∷◌, [], length, take, drop};
ghost use Rattle.h5w_model.specs.Checked.{checked};
ghost use Rattle.h5w_model.specs.Checksum.{sealed_block};
ghost use Rattle.h5w_model.specs.Trees.{node_tests};
ghost use Rattle.h5w_bt.specs.Parts.{number_test};

use h5w_bytes::number;
use h5w_model::BlockFault;
use h5w_sum::seal;

/// The type of records for chunks without filters.
pub const TYPE: u8 = 10;

/// How many bytes a node has beside its records and child pointers.
pub const FRAME: usize = 10;

/// Where the records of a node begin.
pub const FIRST: usize = 6;

/// Whether the number of `width` bytes at place `place` of a block at `at` is the wanted one; else where it stands in the image, and
/// what it is.
pub fn check_number(
    b: &[u8],
    at: u64,
    place: usize,
    width: usize,
    wanted: u64,
) -> Result<(), BlockFault>
    requires low { 1 ≤ width }
    requires high { width ≤ 8 }
    requires inside { place + width ≤ length b.now }
    requires below { at + length b.now ≤ 2 ^ 64 }
    ensures exact { result ≡ checked (number_test b.now at place width wanted ∷ []) tt }
{
    let found = number(b, place, width);
    if found == wanted {
        Ok(())
    } else {
        Err(BlockFault::Field {
            at: at + place as u64,
            found,
        })
    }
}

/// The tests of a node behind its signature: version 0 and the records' type.
pub fn check_node(b: &[u8], at: u64) -> Result<(), BlockFault>
    requires inside { 6 ≤ length b.now }
    requires below { at + length b.now ≤ 2 ^ 64 }
    ensures exact { result ≡ checked (node_tests b.now at) tt }
{
    check_number(b, at, 4, 1, 0)?;
    check_number(b, at, 5, 1, u64::from(TYPE))
}

/// Seals the block of `len` bytes at the front of `out`.
pub fn seal_front(out: &mut [u8], len: usize)
    requires low { 4 ≤ len }
    requires inside { len ≤ length out.old }
    ensures { out.new ≡ sealed_block (take (len - 4) out.old) ++ drop len out.old }
{
    seal(&mut out[..len]);
}
