//! The command that writes datasets of a file anew into another one.
ghost use Rattle.std.specs.Prelude.{◌≡◌, ◌*◌, ◌≤◌, ◌^◌, true, length};
ghost use Rattle.h5w_words.specs.Names.{are_link_names};
ghost use Rattle.h5w_repacking.specs.Repacks.{RepackEnds, RepackEndsWell};
ghost use Rattle.h5w_repacking.specs.Tells.{RepackTells};

use h5w_image::Disk;
use h5w_names::Names;
use h5w_repacking::Rewrite;
use h5w_text::{Sink, Status};
use std::alloc::Global;

/// Writes the datasets that the root group's links of these names lead to into a new file, by the terms of `rewrite`, and what that file
/// has, as [`h5w_repacking::repack`] says.
pub fn repack<K: Sink, D: Disk>(
    alloc: Global,
    rewrite: Rewrite<'_>,
    names: &Names,
    sink: &mut K,
    disk: &mut D,
) -> Status
    requires names { are_link_names names.now ≡ true }
    requires low { 1024 * length names.now ≤ rewrite.limit }
    requires high { rewrite.limit ≤ 2 ^ 40 }
    ensures tells { RepackTells rewrite.entry.file.now rewrite.entry.to.now names.now rewrite.entry.limit rewrite.entry.ranges (D.view disk.old) (D.view disk.new) result (K.view sink.old) (K.view sink.new) }
    ensures repacks { RepackEnds rewrite.entry.file.now rewrite.entry.to.now names.now rewrite.entry.limit rewrite.entry.ranges (D.view disk.old) (D.view disk.new) result (K.view sink.old) (K.view sink.new) }
    ensures completes { RepackEndsWell rewrite.entry.file.now rewrite.entry.to.now names.now (D.view disk.old) (D.view disk.new) result (K.view sink.old) (K.view sink.new) }
{
    h5w_repacking::repack(alloc, rewrite, names, sink, disk)
}
