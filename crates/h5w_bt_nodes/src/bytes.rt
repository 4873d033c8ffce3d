//! Nodes as they are written.

ghost use Rattle.std.specs.Prelude.{◌≡◌, ℕ, ◌+◌, ◌<◌, ◌≤◌, ◌^◌, ◌++◌, length, map, OnOk};
ghost use Rattle.h5w_model.specs.Images.{pieces};
ghost use Rattle.h5w_model.specs.Trees.{btin_at, btin_bytes, btlf_at, btlf_bytes};
ghost use Rattle.h5w_bt.specs.Parts.{IsNode, child_of, record_of};
ghost use Rattle.h5w_bt_nodes.specs.Blocks.{padded};

use h5w_bt::{Btin, Btlf, Child, Children, NODE, Record, Records};
use h5w_bytes::put_pieces;
use h5w_cache::copied;
use h5w_model::{OutOfMemory, Write};

/// How many pieces a node has.
pub const PIECES: usize = 4;

/// Adds the writes of a node's bytes at its place.
fn put_node(place: u64, bytes: &[u8], out: &mut Vec<Write>) -> Result<(), OutOfMemory>
    requires size { length bytes.now ≡ 2048 }
    requires ends { place + 2048 < 2 ^ 64 }
    ensures { OnOk result (out.new.items ≡ out.old.items ++ pieces place bytes.now) }
{
    out.reserve(PIECES)?;
    put_pieces(place, bytes, out);
    Ok(())
}

/// Adds the writes of a leaf of these records at its place.
#[inline(never)]
pub fn put_leaf(records: &Vec<Record>, place: u64, out: &mut Vec<Write>) -> Result<(), OutOfMemory>
    requires few { length records.now.items ≤ 84 }
    requires ends { place + 2048 < 2 ^ 64 }
    ensures written { OnOk result (out.new.items ≡ out.old.items ++ pieces place (padded (btlf_bytes (map record_of records.now.items)))) }
    ensures reads { OnOk result ((from : ℕ) → btlf_at (btlf_bytes (map record_of records.now.items)) from (length records.now.items) ≡ Ok (map record_of records.now.items)) }
{
    let mut bytes = [0; NODE];
    let leaf = Btlf {
        records: Records::from_vec(copied(records)?),
    };
    leaf.encode(&mut bytes);
    put_node(place, &bytes, out)?;
    Ok(())
}

/// Adds the writes of an inner node of this depth, with these records and these pointers, at its place.
#[inline(never)]
pub fn put_inner(
    records: &Vec<Record>,
    children: Vec<Child>,
    depth: u64,
    place: u64,
    out: &mut Vec<Write>,
) -> Result<(), OutOfMemory>
    requires form { IsNode depth (record { records = map record_of records.now.items; children = map child_of children.items }) }
    requires ends { place + 2048 < 2 ^ 64 }
    ensures written { OnOk result (out.new.items ≡ out.old.items ++ pieces place (padded (btin_bytes (record { records = map record_of records.now.items; children = map child_of children.items }) depth))) }
    ensures reads { OnOk result ((from : ℕ) → btin_at (btin_bytes (record { records = map record_of records.now.items; children = map child_of children.items }) depth) from (length records.now.items) depth
        ≡ Ok (record { records = map record_of records.now.items; children = map child_of children.items })) }
{
    let mut bytes = [0; NODE];
    let node = Btin {
        records: Records::from_vec(copied(records)?),
        children: Children::from_vec(children),
    };
    node.encode(depth, &mut bytes);
    put_node(place, &bytes, out)?;
    Ok(())
}
