//! The command that appends to a file, by how many datasets it names.
ghost use Rattle.std.specs.Prelude.{◌≡◌, ◌*◌, ◌≤◌, ◌^◌, true, length, option_map};
ghost use Rattle.h5w_batches.specs.Inputs.{SameSource};
ghost use Rattle.h5w_words.specs.Names.{are_link_names};
ghost use Rattle.h5w_commands.specs.Appending.{AppendTells, AppendTellsInside, AppendTellsWhole, beginning_of, only_of};

use h5w_appending::Terms;
use h5w_image::Disk;
use h5w_names::Names;
use h5w_several_open::Beginning;
use h5w_text::{Sink, Source, Status};
use std::alloc::Global;

/// The name, where it is the only one.
fn only(names: &Names) -> Option<&[u8]>
    ensures { option_map (λ name. name.now) result ≡ only_of names.now }
{
    if names.len() == 1 { names.get(0) } else { None }
}

/// How a session begins: it takes the file over where that is asked for.
pub fn beginning_of(takes: bool) -> Beginning
    ensures { result ≡ beginning_of takes }
{
    if takes {
        Beginning::TakenOver
    } else {
        Beginning::Opened
    }
}

/// Appends the numbers of the source to datasets of the file of these terms, those that the root group's links of these
/// names lead to: to the one dataset, or to the one that a line `use` named last, at first the first. What becomes of its
/// lines, and of the rest, is as [`h5w_appending::append`] says of one name, and [`h5w_several_appending::append`] of
/// more. The file is opened, or taken over from a session that left it.
pub fn append<S: Source, K: Sink, D: Disk>(
    alloc: Global,
    terms: Terms<'_>,
    names: &Names,
    source: &mut S,
    sink: &mut K,
    disk: &mut D,
) -> Status
    requires names { are_link_names names.now ≡ true }
    requires low { 1024 * length names.now ≤ terms.limit }
    requires high { terms.limit ≤ 2 ^ 40 }
    requires budget { (1024 ≤ terms.budget) × (terms.budget ≤ 2 ^ 30) }
    ensures tells { AppendTells terms.entry.by terms.entry.file.now names.now terms.entry.limit (S.view source.old) (S.view source.new) (D.view disk.old) (D.view disk.new) result (K.view sink.old) (K.view sink.new) }
    ensures inside { AppendTellsInside terms.entry.by terms.entry.file.now names.now terms.entry.limit terms.entry.budget terms.entry.keeps (S.view source.old) (S.view source.new) (D.view disk.old) (D.view disk.new) result (K.view sink.old) (K.view sink.new) }
    ensures completes { AppendTellsWhole terms.entry.by terms.entry.file.now names.now result (S.view source.old) (S.view source.new) (K.view sink.old) (K.view sink.new) (D.view disk.old) (D.view disk.new) }
    ensures source { SameSource (S.view source.old) (S.view source.new) }
{
    match only(names) {
        Some(name) => h5w_appending::append(alloc, terms, name, source, sink, disk),
        None => h5w_several_appending::append(alloc, terms, names, source, sink, disk),
    }
}
