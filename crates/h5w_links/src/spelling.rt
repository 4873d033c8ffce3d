//! The data of the root group's messages as they are written.
ghost use Rattle.std.specs.Prelude.{◌≡◌, ◌<◌, ◌≤◌, ◌+◌, ◌++◌, length, drop, true, false};
ghost use Rattle.h5w_model.specs.Links.{link_info_bytes, group_info_bytes, link_bytes, is_link_info, names_heap, is_link, link_fields};

use h5w_bytes::put;

/// Version 0 without flags, and the addresses of no heap and of no name index.
const LINK_INFO: [u8; 18] = [
    0, 0, 0xff, 0xff, 0xff, 0xff, 0xff, 0xff, 0xff, 0xff, 0xff, 0xff, 0xff, 0xff, 0xff, 0xff, 0xff,
    0xff,
];

/// Writes the data of a link info message at the front of `out`, and answers how many bytes that takes: links stand in messages,
/// without a heap, and without creation orders.
#[tactic(auto, unfolding(h5w_model::specs::Numbers::le))]
pub fn encode_link_info(out: &mut [u8]) -> usize
    requires { 18 ≤ length out.old }
    ensures length { result ≡ 18 }
    ensures spelled { out.new ≡ link_info_bytes ++ drop 18 out.old }
    ensures reads_back { (is_link_info out.new ≡ true) × (names_heap out.new ≡ false) }
{
    out[..18].copy_from_slice(&LINK_INFO);
    18
}

/// Writes the data of a group info message at the front of `out`, and answers how many bytes that takes. It says nothing.
pub fn encode_group_info(out: &mut [u8]) -> usize
    requires { 2 ≤ length out.old }
    ensures length { result ≡ 2 }
    ensures spelled { out.new ≡ group_info_bytes ++ drop 2 out.old }
{
    out[0] = 0;
    out[1] = 0;
    2
}

/// Writes the data of a link message at the front of `out`, and answers how many bytes that takes: a hard link of this name, of
/// at most 255 bytes, to the object header at this address.
#[tactic(auto, unfolding(h5w_model::specs::Numbers::le))]
pub fn encode_link(name: &[u8], address: u64, out: &mut [u8]) -> usize
    requires name { length name.now < 256 }
    requires room { 11 + length name.now ≤ length out.old }
    ensures length { result ≡ 11 + length name.now }
    ensures spelled { out.new ≡ link_bytes name.now address ++ drop (11 + length name.now) out.old }
    ensures reads_back { (is_link out.new ≡ true) × (link_fields out.new ≡ record { name = name.now; kind = 0; address = address }) }
{
    let (front, behind) = out.split_at_mut(3);
    front.copy_from_slice(&[1, 0, name.len() as u8]);
    let (text, behind) = behind.split_at_mut(name.len());
    text.copy_from_slice(name);
    put(behind, 0, 8, address);
    11 + name.len()
}
