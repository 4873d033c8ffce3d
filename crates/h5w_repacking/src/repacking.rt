//! The command that writes datasets of a file anew into another one.
ghost use Rattle.std.specs.Prelude.{◌≡◌, ◌++◌, ◌*◌, ◌≢◌, ◌≤◌, ◌^◌, [], count_by, if◌then◌else◌, length, map, IfSome, OnOk};
ghost use Rattle.h5w_image.specs.View.{IsThere};
ghost use Rattle.h5w_packing.specs.Jobs.{IsPrepared};
ghost use Rattle.h5w_packing.specs.Tiles.{tile_of};
ghost use Rattle.h5w_packing.specs.SoFar.{AreSources};
ghost use Rattle.h5w_repack.specs.Packed.{ArePacks};
ghost use Rattle.h5w_repacking.specs.Repacks.{CopiesTo, MakesNew, PacksTo, PlansTo, RepackEnds, RepackEndsWell, RepackedTo, SurveysTo, WritesTo, end_text, is_chunk, line_of_copy, line_of_plan, line_of_survey, packed_text, ranges_text};
ghost use Rattle.h5w_repacking.specs.Tells.{RepackTells};

use crate::rewrite::Rewrite;
use crate::two_files::TwoFiles;
use h5w_files::DiskImage;
use h5w_image::{Disk, MakeError};
use h5w_model::{OutOfMemory, ReadError};
use h5w_names::Names;
use h5w_repack::{
    CopyError, Packing, PlanError, Range, Ranges, Source, SurveyError, copy, kind, plan, survey,
};
use h5w_text::{ErrorLine, Sink, Status, say, tell, write_numbers, write_words};
use std::alloc::Global;

/// The line of a survey's error.
fn line_of_survey(error: SurveyError) -> ErrorLine
    ensures { result ≡ line_of_survey error }
{
    match error {
        SurveyError::Finding { kind, at } => ErrorLine::Finding { kind, at },
        SurveyError::Overlap {
            at,
            len,
            other,
            other_len,
        } => ErrorLine::Overlap {
            at,
            len,
            other,
            other_len,
        },
        SurveyError::Flags { flags } => ErrorLine::Read(ReadError::NotSwmr { flags }),
        SurveyError::Failed => ErrorLine::Disk,
        SurveyError::OutOfMemory => ErrorLine::Memory,
    }
}

/// The line of a plan's error.
fn line_of_plan(error: PlanError) -> ErrorLine
    ensures { result ≡ line_of_plan error }
{
    match error {
        PlanError::Full(full) => ErrorLine::FullSpace {
            at: full.at,
            size: full.size,
            limit: full.limit,
        },
        PlanError::OutOfMemory => ErrorLine::Memory,
    }
}

/// The line of an error of the copying: both files are of one disk.
fn line_of_copy(error: CopyError) -> ErrorLine
    ensures { result ≡ line_of_copy error }
{
    match error {
        CopyError::From | CopyError::To => ErrorLine::Disk,
        CopyError::OutOfMemory => ErrorLine::Memory,
    }
}

/// What is written anew of the file of the name `file`.
fn surveyed<D: Disk>(
    alloc: Global,
    file: &str,
    names: &Names,
    disk: &mut D,
) -> Result<Vec<Source>, ErrorLine>
    ensures { SurveysTo file.now names.now (D.view disk.old) (D.view disk.new) result }
{
    let size = match disk.size(file) {
        Ok(Some(size)) => size,
        Ok(None) => return Err(ErrorLine::Missing),
        Err(_) => return Err(ErrorLine::Disk),
    };
    let mut image = DiskImage { disk, name: file };
    match survey(alloc, &mut image, size, names) {
        Ok(found) => Ok(found),
        Err(error) => Err(line_of_survey(error)),
    }
}

/// Makes the new file, without bytes.
fn make<D: Disk>(to: &str, disk: &mut D) -> Result<(), ErrorLine>
    ensures { MakesNew to.now (D.view disk.old) (D.view disk.new) result }
{
    match disk.make(to) {
        Ok(true) => Ok(()),
        Ok(false) => Err(ErrorLine::Exists),
        Err(MakeError::Failed) => Err(ErrorLine::Disk),
        Err(MakeError::OutOfMemory) => Err(ErrorLine::Memory),
    }
}

/// Adds the lines of the ranges.
fn write_ranges(ranges: &Ranges, out: &mut Vec<u8>) -> Result<(), OutOfMemory>
    ensures { OnOk result (out.new.items ≡ out.old.items ++ ranges_text ranges.now) }
{
    for range in ranges.as_slice() {
        write_numbers(out, b"range", &[range.at, range.len, u64::from(range.kind)])?;
    }
    Ok(())
}

/// Whether the range is a chunk, as a number of chunks.
fn chunk_in(range: &Range) -> u64
    ensures exact { result ≡ (if is_chunk (tile_of range.now) then 1 else 0) }
    ensures bound { result ≤ 1 }
{
    if range.kind == kind::CHUNK { 1 } else { 0 }
}

/// How many of the ranges are chunks.
fn chunks_of(ranges: &[Range]) -> u64
    ensures exact { result ≡ count_by is_chunk (map tile_of ranges.now) }
    ensures bound { result ≤ length ranges.now }
{
    let mut chunks = 0;
    for range in ranges {
        chunks += chunk_in(range);
    }
    chunks
}

/// Adds the line of a packed file that ends there and has these ranges.
fn write_end(end: u64, ranges: &Ranges, out: &mut Vec<u8>) -> Result<(), OutOfMemory>
    ensures { OnOk result (out.new.items ≡ out.old.items ++ end_text end ranges.now) }
{
    let list = ranges.as_slice();
    let chunks = chunks_of(list);
    let blocks = list.len() as u64 - chunks;
    write_words(out, b"repack end", &[end])?;
    write_words(out, b" blocks", &[blocks])?;
    write_numbers(out, b" chunks", &[chunks])
}

/// Adds the line of a packed file, and before it, where they are asked for, those of its ranges.
fn write_packed(packing: &Packing, ranges: bool, out: &mut Vec<u8>) -> Result<(), OutOfMemory>
    ensures { OnOk result (out.new.items ≡ out.old.items ++ packed_text ranges packing.now.end packing.now.ranges) }
{
    let list = packing.ranges();
    if ranges {
        write_ranges(list, out)?;
    }
    write_end(packing.end(), list, out)
}

/// Copies what is planned from one file into another one.
fn copied<D: Disk>(
    packing: &mut Packing,
    file: &str,
    to: &str,
    disk: &mut D,
) -> Result<(), ErrorLine>
    requires from { IsThere (D.view disk.old) file.now }
    requires to { IsThere (D.view disk.old) to.now }
    requires apart { IfSome (D.view disk.old).told (λ d. file.now ≢ to.now) }
    requires prepared { IsPrepared packing.old }
    ensures copies { CopiesTo file.now to.now packing.old.left (D.view disk.old) (D.view disk.new) result }
    ensures ranges { packing.new.ranges ≡ packing.old.ranges }
{
    let mut pair = TwoFiles {
        disk,
        from: file,
        to,
    };
    match copy(packing, &mut pair) {
        Ok(()) => Ok(()),
        Err(error) => Err(line_of_copy(error)),
    }
}

/// The plan of a new file of what was surveyed.
fn planned(alloc: Global, found: &[Source], limit: u64) -> Result<Packing, ErrorLine>
    requires sources { AreSources found.now }
    requires low { 1024 * length found.now ≤ limit }
    requires high { limit ≤ 2 ^ 40 }
    ensures { PlansTo found.now limit result }
{
    match plan(alloc, found, limit) {
        Ok(packing) => Ok(packing),
        Err(error) => Err(line_of_plan(error)),
    }
}

/// Fills the new file, which is there without bytes, by a plan. `text` gets the lines before anything is written.
fn fill<D: Disk>(
    packing: &mut Packing,
    rewrite: Rewrite<'_>,
    text: &mut Vec<u8>,
    disk: &mut D,
) -> Result<(), ErrorLine>
    requires from { IsThere (D.view disk.old) rewrite.file.now }
    requires to { IsThere (D.view disk.old) rewrite.to.now }
    requires apart { IfSome (D.view disk.old).told (λ d. rewrite.file.now ≢ rewrite.to.now) }
    requires prepared { IsPrepared packing.old }
    requires empty { text.old.items ≡ [] }
    ensures copies { CopiesTo rewrite.entry.file.now rewrite.entry.to.now packing.old.left (D.view disk.old) (D.view disk.new) result }
    ensures text { OnOk result (text.new.items ≡ packed_text rewrite.entry.ranges packing.old.end packing.old.ranges) }
{
    if write_packed(packing, rewrite.ranges, text).is_err() {
        return Err(ErrorLine::Memory);
    }
    copied(packing, rewrite.file, rewrite.to, disk)
}

/// Plans the new file, which is there without bytes, and fills it.
fn written<D: Disk>(
    alloc: Global,
    found: &[Source],
    rewrite: Rewrite<'_>,
    text: &mut Vec<u8>,
    disk: &mut D,
) -> Result<(), ErrorLine>
    requires sources { AreSources found.now }
    requires low { 1024 * length found.now ≤ rewrite.limit }
    requires high { rewrite.limit ≤ 2 ^ 40 }
    requires from { IsThere (D.view disk.old) rewrite.file.now }
    requires to { IsThere (D.view disk.old) rewrite.to.now }
    requires apart { IfSome (D.view disk.old).told (λ d. rewrite.file.now ≢ rewrite.to.now) }
    requires empty { text.old.items ≡ [] }
    ensures { WritesTo rewrite.entry.file.now rewrite.entry.to.now rewrite.entry.limit rewrite.entry.ranges found.now (D.view disk.old) (D.view disk.new) text.new.items result }
{
    let mut packing = planned(alloc, found, rewrite.limit)?;
    fill(&mut packing, rewrite, text, disk)
}

/// Makes the new file, plans it, and fills it.
fn packed<D: Disk>(
    alloc: Global,
    found: &[Source],
    rewrite: Rewrite<'_>,
    text: &mut Vec<u8>,
    disk: &mut D,
) -> Result<(), ErrorLine>
    requires sources { AreSources found.now }
    requires low { 1024 * length found.now ≤ rewrite.limit }
    requires high { rewrite.limit ≤ 2 ^ 40 }
    requires from { IsThere (D.view disk.old) rewrite.file.now }
    requires empty { text.old.items ≡ [] }
    ensures { PacksTo rewrite.entry.file.now rewrite.entry.to.now rewrite.entry.limit rewrite.entry.ranges found.now (D.view disk.old) (D.view disk.new) text.new.items result }
{
    make(rewrite.to, disk)?;
    written(alloc, found, rewrite, text, disk)
}

/// Writes the datasets anew, and puts what is told of them into `text`.
fn repacked<D: Disk>(
    alloc: Global,
    rewrite: Rewrite<'_>,
    names: &Names,
    text: &mut Vec<u8>,
    disk: &mut D,
) -> Result<(), ErrorLine>
    requires names { ArePacks names.now }
    requires low { 1024 * length names.now ≤ rewrite.limit }
    requires high { rewrite.limit ≤ 2 ^ 40 }
    requires empty { text.old.items ≡ [] }
    ensures { RepackedTo rewrite.entry.file.now rewrite.entry.to.now names.now rewrite.entry.limit rewrite.entry.ranges (D.view disk.old) (D.view disk.new) text.new.items result }
{
    let found = surveyed(alloc, rewrite.file, names, disk)?;
    packed(alloc, &found, rewrite, text, disk)
}

/// Writes the datasets that the root group's links of `names` lead to, in the file of the name `file`, into a new file of the name `to`, which
/// ends by `limit`, and tells where it ends and what it has; before that, where `ranges` is set, its ranges by their places.
#[tactic(auto, using(crate::proofs::EndLemmas::repacks_whole))]
pub fn repack<K: Sink, D: Disk>(
    alloc: Global,
    rewrite: Rewrite<'_>,
    names: &Names,
    sink: &mut K,
    disk: &mut D,
) -> Status
    requires names { ArePacks names.now }
    requires low { 1024 * length names.now ≤ rewrite.limit }
    requires high { rewrite.limit ≤ 2 ^ 40 }
    ensures tells { RepackTells rewrite.entry.file.now rewrite.entry.to.now names.now rewrite.entry.limit rewrite.entry.ranges (D.view disk.old) (D.view disk.new) result (K.view sink.old) (K.view sink.new) }
    ensures repacks { RepackEnds rewrite.entry.file.now rewrite.entry.to.now names.now rewrite.entry.limit rewrite.entry.ranges (D.view disk.old) (D.view disk.new) result (K.view sink.old) (K.view sink.new) }
    ensures completes { RepackEndsWell rewrite.entry.file.now rewrite.entry.to.now names.now (D.view disk.old) (D.view disk.new) result (K.view sink.old) (K.view sink.new) }
{
    let mut text = Vec::new(alloc);
    match repacked(alloc, rewrite, names, &mut text, disk) {
        Ok(()) => say(&text, Status::Done, sink),
        Err(error) => tell(alloc, &error, sink),
    }
}
