ghost use Rattle.std.specs.Prelude.{◌≡◌, ◌+◌, ◌^◌, ◌<◌, ◌≤◌, ℕ};
ghost use Rattle.h5w_model.specs.Trees.{capacity_of, subtree_of, pointer_size, btin_len, btlf_len, node_size};
ghost use Rattle.h5w_bt.specs.Lengths.{node_len};

use crate::fields::FRAME;
use crate::records::RECORD;

/// How many bytes a node takes in the file.
pub const NODE: usize = 2048;

/// The most records of a node, by its depth.
const CAPACITIES: [u64; 4] = [84, 61, 57, 56];

/// The most records under a node, by its depth.
const SUBTREES: [u64; 4] = [84, 5_269, 305_659, 17_422_619];

/// The most records of a node of this depth: as many as fit 2,048 bytes with what stands around them ("Version 2 B-trees").
pub fn capacity(depth: u64) -> u64
    requires { depth ≤ 3 }
    ensures exact { result ≡ capacity_of depth }
    ensures few { result ≤ 84 }
    // So many records, and the child pointers beside them, fit a node, and one more does not.
    ensures fits { (n : ℕ) → n ≤ result → btin_len n depth ≤ node_size }
    ensures most { node_size < btin_len (result + 1) depth }
{
    CAPACITIES[depth as usize]
}

/// The most records under a node of this depth, its own included.
pub fn subtree(depth: u64) -> u64
    requires { depth ≤ 3 }
    ensures exact { result ≡ subtree_of depth }
{
    SUBTREES[depth as usize]
}

/// How many bytes a child pointer has in a node of this depth: an address, the child's record count in one byte, and where the
/// child is no leaf, the number of records under it in as many bytes as the depth.
pub fn pointer_size(depth: u64) -> usize
    requires low { 1 ≤ depth }
    requires high { depth ≤ 3 }
    ensures exact { result ≡ pointer_size depth }
    ensures low { 9 ≤ result }
    ensures high { result ≤ 12 }
{
    if depth == 1 { 9 } else { 9 + depth as usize }
}

/// How many bytes a node of a depth with `n` records has, up to its sum.
pub fn node_len(depth: u64, n: u64) -> u64
    requires shallow { depth ≤ 3 }
    requires few { n ≤ 84 }
    ensures exact { result ≡ node_len depth n }
    ensures leaf { depth ≡ 0 → result ≡ btlf_len n }
    ensures inner { (d : ℕ) → depth ≡ d + 1 → result ≡ btin_len n depth }
    ensures some { 0 < result }
    ensures small { result < 2 ^ 32 }
{
    let records = FRAME as u64 + RECORD as u64 * n;
    match depth {
        0 => records,
        1 => records + (n + 1) * 9,
        2 => records + (n + 1) * 11,
        _ => records + (n + 1) * 12,
    }
}
