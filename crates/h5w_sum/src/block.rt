ghost use Rattle.std.specs.Prelude.{◌≡◌, ◌≤◌, length};
ghost use Rattle.h5w_model.specs.Checked.{checked};
ghost use Rattle.h5w_model.specs.Blocks.{block_tests};

use crate::sealed;
use h5w_model::BlockFault;

/// The tests that come first for a block of an index of `len` bytes at the front of `b`: that it is whole, begins
/// with its signature, and is sealed.
pub fn check_block(b: &[u8], signature: &[u8; 4], len: usize) -> Result<(), BlockFault>
    requires { 4 ≤ len }
    ensures exact { result ≡ checked (block_tests signature.now len b.now) tt }
{
    if b.len() < len {
        return Err(BlockFault::Cut {
            need: len as u64,
            got: b.len() as u64,
        });
    }
    if !b.starts_with(signature) {
        return Err(BlockFault::Signature {
            found: [b[0], b[1], b[2], b[3]],
        });
    }
    sealed(&b[..len]).map_err(BlockFault::Sum)
}
