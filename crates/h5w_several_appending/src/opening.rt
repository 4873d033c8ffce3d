//! A session begins over a file by several names, to append to it.
ghost use Rattle.std.specs.Prelude.{◌≤◌, ◌+◌, ◌^◌, length};
ghost use Rattle.std.specs.List.{All};
ghost use Rattle.h5w_image.specs.View.{IsThere};
ghost use Rattle.h5w_files.specs.Images.{LeavesFiles};
ghost use Rattle.h5w_appending.specs.Appending.{HasSize};
ghost use Rattle.h5w_several_appending.specs.Appending.{IsKept, LooksOpen, OpensBy};

use h5w_appending::Terms;
use h5w_files::DiskImage;
use h5w_image::Disk;
use h5w_names::Names;
use h5w_several_open::begin_all;
use h5w_several_writer::SeveralWriter;
use h5w_text::ErrorLine;
use h5w_writer_lines::open_line;
use std::alloc::Global;

/// Looks at a file of this size, and begins a session over it.
fn look_open<D: Disk>(
    alloc: Global,
    terms: Terms<'_>,
    size: u64,
    names: &Names,
    disk: &mut D,
) -> Result<SeveralWriter, ErrorLine>
    requires there { IsThere (D.view disk.old) terms.file.now }
    requires sized { HasSize (D.view disk.old) terms.file.now size }
    requires some { 1 ≤ length names.now }
    requires few { length names.now ≤ 8 }
    requires names { All (λ name. length name ≤ 512) names.now }
    requires low { 1024 ≤ terms.limit }
    requires high { terms.limit ≤ 2 ^ 40 }
    requires budget { (1024 ≤ terms.budget) × (terms.budget ≤ 2 ^ 30) }
    ensures disk { LeavesFiles (D.view disk.old).told (D.view disk.old) (D.view disk.new) }
    ensures opens { LooksOpen terms.entry.by terms.entry.file.now names.now terms.entry.limit terms.entry.budget (D.view disk.old) (D.view disk.new) result }
{
    let mut image = DiskImage {
        disk,
        name: terms.file,
    };
    match begin_all(
        alloc,
        terms.by,
        &mut image,
        size,
        names,
        terms.limit,
        terms.budget,
    ) {
        Ok(session) => Ok(session),
        Err(error) => Err(open_line(error)),
    }
}

/// Lets a session go. It has many parts, and each place that lets it go is dear to prove.
pub fn release(_session: SeveralWriter) {}

/// What is retired stays retired, where that is asked for.
fn retire(session: &mut SeveralWriter, keeps: bool)
    ensures { IsKept session.old session.new }
{
    if keeps {
        session.keep_retired();
    }
}

/// Begins a session over the file, with room for what is pending and the piece that closes the session.
pub fn open<D: Disk>(
    alloc: Global,
    terms: Terms<'_>,
    names: &Names,
    disk: &mut D,
) -> Result<SeveralWriter, ErrorLine>
    requires some { 1 ≤ length names.now }
    requires few { length names.now ≤ 8 }
    requires names { All (λ name. length name ≤ 512) names.now }
    requires low { 1024 ≤ terms.limit }
    requires high { terms.limit ≤ 2 ^ 40 }
    requires budget { (1024 ≤ terms.budget) × (terms.budget ≤ 2 ^ 30) }
    ensures { OpensBy terms.entry.by terms.entry.file.now names.now terms.entry.limit (D.view disk.old) (D.view disk.new) result }
{
    let size = match disk.size(terms.file) {
        Ok(Some(size)) => size,
        Ok(None) => return Err(ErrorLine::Missing),
        Err(_) => return Err(ErrorLine::Disk),
    };
    let mut session = match look_open(alloc, terms, size, names, disk) {
        Ok(session) => session,
        Err(error) => return Err(error),
    };
    match disk.reserve(terms.file, session.pending() + 1, session.end()) {
        Ok(()) => {}
        Err(_) => {
            release(session);
            return Err(ErrorLine::Memory);
        }
    }
    retire(&mut session, terms.keeps);
    Ok(session)
}
