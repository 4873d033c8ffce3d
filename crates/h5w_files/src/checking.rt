//! The command that checks a whole file.
ghost use Rattle.std.specs.Prelude.{◌≡◌, ◌++◌, OnOk};
ghost use Rattle.h5w_check.specs.Verdicts.{summary_of};
ghost use Rattle.h5w_files.specs.Ends.{EndsWell};
ghost use Rattle.h5w_files.specs.Checks.{CheckEnds, ChecksTo, check_line, check_of, summary_seen, valid_text};

use crate::image::DiskImage;
use h5w_check::{CheckError, Summary, check as check_image};
use h5w_image::Disk;
use h5w_names::Names;
use h5w_text::{ErrorLine, OutOfMemory, Sink, Status, say, tell, write_numbers, write_words};
use std::alloc::Global;

/// The line of a check's error.
fn check_line(error: CheckError) -> ErrorLine
    ensures { result ≡ check_line error }
{
    match error {
        CheckError::Finding { kind, at } => ErrorLine::Finding { kind, at },
        CheckError::Overlap {
            at,
            len,
            other,
            other_len,
        } => ErrorLine::Overlap {
            at,
            len,
            other,
            other_len,
        },
        CheckError::Failed => ErrorLine::Disk,
        CheckError::OutOfMemory => ErrorLine::Memory,
    }
}

/// Checks the file of the name `file`, by the datasets that the root group's links of these names lead to.
#[tactic(auto, using(h5w_image::proofs::DiskLemmas::kept, crate::proofs::CheckLemmas::checks_missing, crate::proofs::CheckLemmas::checks_failed))]
fn checked<D: Disk>(
    alloc: Global,
    file: &str,
    names: &Names,
    disk: &mut D,
) -> Result<Summary, ErrorLine>
    ensures { ChecksTo file.now names.now (D.view disk.old) (D.view disk.new) (summary_seen result) }
{
    let size = match disk.size(file) {
        Ok(Some(size)) => size,
        Ok(None) => return Err(ErrorLine::Missing),
        Err(_) => return Err(ErrorLine::Disk),
    };
    let mut image = DiskImage { disk, name: file };
    match check_image(alloc, &mut image, size, names) {
        Ok(summary) => Ok(summary),
        Err(error) => Err(check_line(error)),
    }
}

/// Adds the line of a valid file.
fn write_valid(out: &mut Vec<u8>, s: &Summary) -> Result<(), OutOfMemory>
    ensures { OnOk result (out.new.items ≡ out.old.items ++ valid_text (summary_of s.now)) }
{
    write_words(out, b"valid rows", &s.rows)?;
    write_words(out, b" chunks", &[s.chunks])?;
    write_words(out, b" blocks", &[s.blocks])?;
    write_words(out, b" end", &[s.end])?;
    write_numbers(out, b" lost", &[s.lost])
}

/// Writes what the file of the name `file` has where it is valid, and else the first finding; by the datasets that the root
/// group's links of these names lead to, whose rows come in the order of the names.
#[tactic(auto, using(crate::proofs::CheckLemmas::checks_told, crate::proofs::CheckLemmas::checks_done, crate::proofs::CheckLemmas::checks_whole))]
pub fn check<K: Sink, D: Disk>(
    alloc: Global,
    file: &str,
    names: &Names,
    sink: &mut K,
    disk: &mut D,
) -> Status
    ensures checks { CheckEnds file.now names.now (D.view disk.old) (D.view disk.new) result (K.view sink.old) (K.view sink.new) }
    ensures completes { EndsWell (check_of names.now) file.now (D.view disk.old) (D.view disk.new) result (K.view sink.old) (K.view sink.new) }
{
    let summary = match checked(alloc, file, names, disk) {
        Ok(summary) => summary,
        Err(error) => return tell(alloc, &error, sink),
    };
    let mut text = Vec::new(alloc);
    match write_valid(&mut text, &summary) {
        Ok(()) => say(&text, Status::Done, sink),
        Err(OutOfMemory) => tell(alloc, &ErrorLine::Memory, sink),
    }
}
