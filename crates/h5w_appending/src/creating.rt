//! The command that makes a file.
ghost use Rattle.std.specs.Prelude.{◌≡◌, ◌≤◌, [], ◌∷◌, codes, length, IfErr, IfOk, OnErr, OnOk};
ghost use Rattle.h5w_image.specs.View.{IsThere};
ghost use Rattle.h5w_model.specs.Images.{AllSized};
ghost use Rattle.h5w_creation.specs.Forms.{IsForm};
ghost use Rattle.h5w_creation_laws.specs.CreationLaws.{WritesEndBy};
ghost use Rattle.h5w_several_creation.specs.Forms.{AreNames, all_by};
ghost use Rattle.h5w_several_creation_laws.specs.SeveralFiles.{AllNamed, closed_writes, created_writes, end_of, super_of};
ghost use Rattle.h5w_text.specs.Table.{numbers_text};
ghost use Rattle.h5w_files.specs.Ends.{EndsWell};
ghost use Rattle.h5w_appending.specs.Creates.{CreateEnds, CreatesTo, FillsFew, Makes, PutsFew, PutsUpTo, answer_of, end_given};

use h5w_image::{Disk, Failed, MakeError};
use h5w_model::{OutOfMemory, Write};
use h5w_names::Names;
use h5w_several_creation::{Creations, Form, closing, create_files};
use h5w_text::{ErrorLine, Sink, Status, say, say_line, write_numbers};
use std::alloc::Global;

/// Why a file was not made.
#[derive(Clone, Copy)]
enum CreateError {
    /// Something has its name.
    Exists,
    /// The disk's count of faults rose.
    Failed,
    OutOfMemory,
}

/// The pieces of a new file, the last of which closes it, and where it ends.
#[derive(Drop)]
struct NewPieces {
    end: u64,
    writes: Vec<Write>,
}

/// Puts these pieces into the file, one after another.
#[tactic(auto, using(h5w_image::proofs::DiskLemmas::kept))]
fn put_all<D: Disk>(writes: &[Write], file: &str, disk: &mut D) -> Result<(), Failed>
    requires there { IsThere (D.view disk.old) file.now }
    requires room { length writes.now ≤ (D.view disk.old).pieces }
    requires sized { AllSized writes.now }
    requires ends { WritesEndBy ((D.view disk.old).end file.now) writes.now }
    ensures all { OnOk result (PutsUpTo file.now writes.now [] (D.view disk.old) (D.view disk.new)) }
    ensures calm { OnOk result ((D.view disk.new).faults ≡ (D.view disk.old).faults) }
    ensures few { OnErr result (PutsFew file.now writes.now (D.view disk.old) (D.view disk.new)) }
{
    for w in writes {
        match disk.put(file, w) {
            Ok(()) => {}
            Err(failed) => return Err(failed),
        }
    }
    Ok(())
}

/// Puts these pieces, which end by `end`, into a file that was made.
fn fill_all<D: Disk>(new: &NewPieces, file: &str, disk: &mut D) -> Result<(), CreateError>
    requires there { IsThere (D.view disk.old) file.now }
    requires sized { AllSized new.now.writes.items }
    requires ends { WritesEndBy new.now.end new.now.writes.items }
    ensures all { OnOk result (PutsUpTo file.now new.now.writes.items [] (D.view disk.old) (D.view disk.new)) }
    ensures calm { OnOk result ((D.view disk.new).faults ≡ (D.view disk.old).faults) }
    ensures refused { IfErr result (λ e. FillsFew file.now new.now.writes.items (D.view disk.old) (D.view disk.new) e) }
{
    let pieces = new.writes.len() as u64;
    match disk.reserve(file, pieces, new.end) {
        Ok(()) => {}
        Err(_) => return Err(CreateError::OutOfMemory),
    }
    match put_all(&new.writes, file, disk) {
        Ok(()) => Ok(()),
        Err(_) => Err(CreateError::Failed),
    }
}

/// Makes the file of these pieces.
fn make_new<D: Disk>(new: &NewPieces, file: &str, disk: &mut D) -> Result<(), CreateError>
    requires sized { AllSized new.now.writes.items }
    requires ends { WritesEndBy new.now.end new.now.writes.items }
    ensures { Makes file.now new.now.writes.items (D.view disk.old) (D.view disk.new) result }
{
    match disk.make(file) {
        Ok(true) => fill_all(new, file, disk),
        Ok(false) => Err(CreateError::Exists),
        Err(MakeError::Failed) => Err(CreateError::Failed),
        Err(MakeError::OutOfMemory) => Err(CreateError::OutOfMemory),
    }
}

/// A new file with a dataset of this form under each of these names.
fn create_alike(alloc: Global, names: &Names, form: &Form) -> Result<Creations, OutOfMemory>
    requires form { IsForm form.now }
    requires names { AreNames names.now }
    ensures root { IfOk result (λ made. made.root ≡ super_of 5 (all_by names.now form.now)) }
    ensures writes { IfOk result (λ made. made.writes.items ≡ created_writes (all_by names.now form.now)) }
{
    let forms = vec![in alloc; *form; names.len()]?;
    create_files(alloc, names, &forms)
}

/// The pieces of a new file with a dataset of this form under each of these names. `text` gets the line of its end.
fn begin(
    alloc: Global,
    names: &Names,
    form: &Form,
    text: &mut Vec<u8>,
) -> Result<NewPieces, CreateError>
    requires form { IsForm form.now }
    requires names { AreNames names.now }
    requires empty { text.old.items ≡ [] }
    ensures end { IfOk result (λ new. new.end ≡ end_of (all_by names.now form.now)) }
    ensures writes { IfOk result (λ new. new.writes.items ≡ closed_writes (all_by names.now form.now)) }
    ensures refused { IfErr result (λ e. e ≡ CreateError.OutOfMemory) }
    ensures text { OnOk result (text.new.items ≡ numbers_text (codes "new end") (end_of (all_by names.now form.now) ∷ [])) }
{
    let Ok(made) = create_alike(alloc, names, form) else {
        return Err(CreateError::OutOfMemory);
    };
    let end = made.root.end;
    let mut writes = made.writes;
    if writes.push(closing(end)).is_err() {
        return Err(CreateError::OutOfMemory);
    }
    match write_numbers(text, b"new end", &[end]) {
        Ok(()) => Ok(NewPieces { end, writes }),
        Err(_) => Err(CreateError::OutOfMemory),
    }
}

/// Makes the file. `text` gets the line of its end before it is there.
fn make_file<D: Disk>(
    alloc: Global,
    file: &str,
    names: &Names,
    form: &Form,
    text: &mut Vec<u8>,
    disk: &mut D,
) -> Result<(), CreateError>
    requires form { IsForm form.now }
    requires names { AreNames names.now }
    requires named { AllNamed names.now }
    requires empty { text.old.items ≡ [] }
    ensures creates { CreatesTo file.now (all_by names.now form.now) (D.view disk.old) (D.view disk.new) (answer_of (end_of (all_by names.now form.now)) result) }
    ensures text { OnOk result (text.new.items ≡ numbers_text (codes "new end") (end_of (all_by names.now form.now) ∷ [])) }
{
    match begin(alloc, names, form, text) {
        Ok(new) => make_new(&new, file, disk),
        Err(error) => Err(error),
    }
}

/// Makes the file of the name `file`, with an empty dataset of this form under each of these names, of which no two are the same, and writes
/// where it ends.
pub fn create<K: Sink, D: Disk>(
    alloc: Global,
    file: &str,
    names: &Names,
    form: &Form,
    sink: &mut K,
    disk: &mut D,
) -> Status
    requires form { IsForm form.now }
    requires names { AreNames names.now }
    requires named { AllNamed names.now }
    ensures creates { CreateEnds file.now (all_by names.now form.now) (D.view disk.old) (D.view disk.new) result (K.view sink.old) (K.view sink.new) }
    ensures completes { EndsWell (end_given (end_of (all_by names.now form.now))) file.now (D.view disk.old) (D.view disk.new) result (K.view sink.old) (K.view sink.new) }
{
    let mut text = Vec::new(alloc);
    match make_file(alloc, file, names, form, &mut text, disk) {
        Ok(()) => say(&text, Status::Done, sink),
        Err(CreateError::Exists) => say_line(&ErrorLine::Exists, sink),
        Err(CreateError::Failed) => say_line(&ErrorLine::Disk, sink),
        Err(CreateError::OutOfMemory) => say_line(&ErrorLine::Memory, sink),
    }
}
