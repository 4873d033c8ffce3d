//! The links of a list of messages, and the link with a name.
ghost use Rattle.std.specs.Prelude.{◌≡◌, ◌⊎◌, ◌&&◌, ◌==◌, ◌≤◌, length, find, option_copied, Err};
ghost use Rattle.h5w_model.specs.Links.{link_info_kind, links_at, find_link, spelled_links, is_link_info, names_heap, is_named, link_list};
ghost use Rattle.h5w_links.specs.Views.{link_view};
ghost use Rattle.h5w_model.specs.declared.refusal.LinkError.TheVariants.{OutOfMemory};

use crate::link::{Link, heap_of, link_of};
use crate::table::Links;
use h5w_bytes::UNDEFINED;
use h5w_model::{LinkError, Msg};
use h5w_ohdr::Msgs;
use h5w_ohdr::kind::{LINK, LINK_INFO};
use std::alloc::Global;

/// The links of these messages, where the first link info and each link are spelled as such; else the first that is not.
fn spelled_links(alloc: Global, list: &[Msg]) -> Result<Links<'_>, LinkError>
    ensures exact { (result ≡ spelled_links list.now) ⊎ (result ≡ Err OutOfMemory) }
    ensures few { length (link_list list.now) ≤ 4 → result ≡ spelled_links list.now }
{
    let mut links = Links::new(alloc);
    let mut seen = false;
    for m in list {
        if m.kind == LINK_INFO && !seen {
            if heap_of(m.body.as_slice()).is_none() {
                return Err(LinkError::Malformed { at: m.at });
            }
            seen = true;
        } else if m.kind == LINK {
            let Some(link) = link_of(m.body.as_slice()) else {
                return Err(LinkError::Malformed { at: m.at });
            };
            links.push(link)?;
        }
    }
    Ok(links)
}

/// The first link info.
fn first_info(list: &[Msg]) -> Option<&Msg>
    ensures { option_copied result ≡ find (λ m. m.kind == link_info_kind) list.now }
{
    list.iter().find(|m| m.kind == LINK_INFO)
}

/// Whether these are the data of a link info that names a heap, so that links are no messages.
fn is_dense(b: &[u8]) -> bool
    ensures { result ≡ (is_link_info b.now && names_heap b.now) }
{
    match heap_of(b) {
        Some(heap) => heap != UNDEFINED,
        None => false,
    }
}

/// The links of the root group, by the messages of its header: Dense where there is no link info, or where the first names a heap;
/// Malformed at the first of that link info and the links that is not spelled as such. Up to 4 links need no memory.
#[tactic(auto, unfolding(h5w_model::specs::Links::links_at))]
pub fn links(alloc: Global, msgs: &Msgs) -> Result<Links<'_>, LinkError>
    ensures exact { (result ≡ links_at msgs.now) ⊎ (result ≡ Err OutOfMemory) }
    ensures few { length (link_list msgs.now) ≤ 4 → result ≡ links_at msgs.now }
{
    let list = msgs.as_slice();
    let Some(info) = first_info(list) else {
        return Err(LinkError::Dense);
    };
    if is_dense(info.body.as_slice()) {
        return Err(LinkError::Dense);
    }
    spelled_links(alloc, list)
}

/// The first link of this name.
fn named<'l, 'a>(list: &'l [Link<'a>], name: &[u8]) -> Option<&'l Link<'a>>
    ensures { option_copied result ≡ find (λ link. is_named name.now (link_view link)) list.now }
{
    list.iter().find(|link| link.name == name)
}

/// The address that the first link of this name has, if it is hard.
pub fn find(links: &Links<'_>, name: &[u8]) -> Result<u64, LinkError>
    ensures exact { result ≡ find_link links.now name.now }
{
    let Some(link) = named(links.as_slice(), name) else {
        return Err(LinkError::NoSuchName);
    };
    if link.kind != 0 {
        return Err(LinkError::NotHard { kind: link.kind });
    }
    Ok(link.address)
}
