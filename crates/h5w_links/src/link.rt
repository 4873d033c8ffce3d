//! The data of link info and link messages.
ghost use Rattle.std.specs.Prelude.{◌≡◌, ◌≤◌, true, false, if◌then◌else◌, nat_le, length, Some, None, MatchOption};
ghost use Rattle.h5w_model.specs.Numbers.{field};
ghost use Rattle.h5w_model.specs.Headers.{has, size_width};
ghost use Rattle.h5w_model.specs.Links.{heap_place, is_link_info, is_link, link_fields, link_flags, link_kind, name_length_place};
ghost use Rattle.h5w_links.specs.Views.{link_view};

use h5w_bytes::{byte, get, number};

/// A link of the root group. The name is that of its message, without a copy.
#[derive(Clone, Copy)]
pub struct Link<'a> {
    pub name: &'a [u8],
    /// The link's type: 0 is a hard link.
    pub kind: u8,
    /// The address of the object header that a hard link names, else 0.
    pub address: u64,
}

impl<'a> Default for Link<'a> {
    fn default() -> Link<'a> {
        Link {
            name: &[],
            kind: 0,
            address: 0,
        }
    }
}

/// The heap address of a link info, None where the data are not spelled as one.
pub fn heap_of(b: &[u8]) -> Option<u64>
    ensures { MatchOption result (is_link_info b.now ≡ false) (λ heap. (is_link_info b.now ≡ true) × (heap ≡ field b.now (heap_place b.now) 8)) }
{
    if b.len() < 2 || byte(b, 0) != 0 {
        return None;
    }
    let flags = byte(b, 1);
    let place = if flags & 1 != 0 { 10 } else { 2 };
    let behind = if flags & 2 != 0 { 24 } else { 16 };
    if b.len() < place + behind {
        return None;
    }
    Some(number(b, place, 8))
}

/// How many bytes the length of the name takes, by the link's flags.
fn name_length_width(flags: u8) -> usize
    ensures exact { result ≡ size_width flags }
    ensures low { 1 ≤ result }
    ensures high { result ≤ 8 }
{
    1 << (flags & 3)
}

/// Where the length of the name stands, by the link's flags: behind version and flags stand the link's type with bit 3, the creation
/// order with bit 2, and the character set with bit 4.
fn name_length_place(flags: u8) -> usize
    ensures exact { result ≡ name_length_place flags }
    ensures typed { has flags 8 ≡ true → 3 ≤ result }
    ensures high { result ≤ 12 }
{
    let kind = if flags & 8 != 0 { 1 } else { 0 };
    let order = if flags & 4 != 0 { 8 } else { 0 };
    let charset = if flags & 0x10 != 0 { 1 } else { 0 };
    2 + kind + order + charset
}

/// The type of a link, by its flags.
fn kind_of(b: &[u8], flags: u8) -> u8
    requires flags { flags ≡ link_flags b.now }
    requires typed { has flags 8 ≡ true → 3 ≤ length b.now }
    ensures { result ≡ link_kind b.now }
{
    if flags & 8 != 0 { byte(b, 2) } else { 0 }
}

/// The address of a link, by what stands behind its name; None where a hard link has none.
fn address_of(b: &[u8], kind: u8) -> Option<u64>
    ensures hard { kind ≡ 0 → result ≡ (if nat_le 8 (length b.now) then Some (field b.now 0 8) else None) }
    ensures other { (kind ≡ 0 → ⊥) → result ≡ Some 0 }
{
    if kind == 0 { get(b, 0, 8) } else { Some(0) }
}

/// The link that these data are, None where they are not spelled as one.
pub fn link_of(b: &[u8]) -> Option<Link<'_>>
    ensures { MatchOption result (is_link b.now ≡ false) (λ link. (is_link b.now ≡ true) × (link_view link ≡ link_fields b.now)) }
{
    if b.len() < 2 || byte(b, 0) != 1 {
        return None;
    }
    let flags = byte(b, 1);
    let place = name_length_place(flags);
    let width = name_length_width(flags);
    if b.len() < place + width {
        return None;
    }
    let len = number(b, place, width);
    let kind = kind_of(b, flags);
    let (_, behind) = b.split_at(place + width);
    if (behind.len() as u64) < len {
        return None;
    }
    let (name, behind) = behind.split_at(len as usize);
    let address = address_of(behind, kind)?;
    Some(Link {
        name,
        kind,
        address,
    })
}
