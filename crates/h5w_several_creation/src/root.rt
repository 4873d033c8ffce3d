//! The root header of a file of several datasets.
ghost use Rattle.std.specs.Prelude.{◌≡◌, ◌+◌, ◌<◌, ◌≤◌, ◌^◌, ◌∷◌, ◌++◌, [], List, length, nat_le, if◌then◌else◌, IfOk, OnOk};
ghost use Rattle.std.specs.List.{sum_by};
ghost use Rattle.h5w_model.specs.Headers.{header_bytes, msgs_bytes};
ghost use Rattle.h5w_model.specs.Images.{pieces};
ghost use Rattle.h5w_model.specs.Links.{group_info_bytes, link_bytes, link_info_bytes, link_info_kind, link_message_kind};
ghost use Rattle.h5w_step_laws.specs.Spelled.{message};
ghost use Rattle.h5w_creation_laws.specs.CreatedFiles.{group_info_kind, root_place};
ghost use Rattle.h5w_several_creation_laws.specs.SeveralFiles.{first_place};
ghost use Rattle.h5w_creation.specs.declared.form.Form.{Form};
ghost use Rattle.h5w_several_creation.specs.Forms.{AreNames, each_by};

use h5w_bytes::put_pieces;
use h5w_creation::ROOT_PLACE;
use h5w_model::{OutOfMemory, Write};
use h5w_names::Names;
use h5w_ohdr::Msgs;

/// How many bytes a link has beside its name.
const LINK: usize = 15;

/// How many bytes link info and group info have.
const INFOS: usize = 28;

/// More bytes than the root header of eight names has.
const ROOT_MOST: usize = 1024;

/// How many bytes the links of these names take.
fn links_len(names: &Names) -> usize
    requires { sum_by (λ name. 15 + length name) names.now < 2 ^ 16 }
    ensures exact { result ≡ sum_by (λ name. 15 + length name) names.now }
    ensures bound { result < 2 ^ 16 }
{
    names
        .as_slice()
        .iter()
        .map(|name| LINK + name.as_slice().len())
        .sum()
}

/// How many bytes the root header has beside messages of this size.
fn head_of(size: usize) -> usize
    ensures exact { result ≡ (if nat_le size 255 then 11 else 12) }
    ensures bound { result ≤ 12 }
{
    if size <= 255 { 11 } else { 12 }
}

/// Where the first dataset header stands, behind the root header of these names.
pub fn first_place(names: &Names) -> u64
    requires { AreNames names.now }
    ensures { (forms : List Form) → length forms ≡ length names.now → result ≡ first_place (each_by names.now forms) }
{
    let size = INFOS + links_len(names);
    ROOT_PLACE + (head_of(size) + size) as u64
}

/// Adds the pieces of the root header with these messages.
pub fn put_root(list: &Msgs, writes: &mut Vec<Write>) -> Result<(), OutOfMemory>
    requires size { length (msgs_bytes list.now) ≤ 660 }
    ensures { OnOk result (writes.new.items ≡ writes.old.items ++ pieces root_place (header_bytes list.now)) }
{
    let mut bytes = [0; ROOT_MOST];
    let len = list.encode(&mut bytes);
    writes.reserve(2)?;
    put_pieces(ROOT_PLACE, &bytes[..len], writes);
    Ok(())
}
