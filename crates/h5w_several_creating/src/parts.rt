//! The sessions over the datasets of a new file, as they begin once its pieces are visible.
ghost use Rattle.std.specs.Prelude.{◌≡◌, ◌≤◌, IfOk, OnOk, length};
ghost use Rattle.std.specs.List.{AllByRecursion};
ghost use Rattle.h5w_creation.specs.Forms.{IsForm, created_by};
ghost use Rattle.h5w_several_creation_laws.specs.SeveralFiles.{end_behind, end_from};
ghost use Rattle.h5w_several_creation.specs.Forms.{HasRoom, each_by};
ghost use Rattle.h5w_several_creating.specs.Parts.{AddsParts, IsMold, IsPartOver, IsShared};

use h5w_chunks::{Grid, Layout};
use h5w_creation::{ARRAY_LEN, Form, create_file, dataset_header, index_len, new_index};
use h5w_model::{Bytes, OutOfMemory, Super};
use h5w_writer::{FileParts, WriterCore};
use std::alloc::Global;

/// What the sessions over all datasets of a new file have alike.
#[derive(Clone, Copy)]
pub(crate) struct Shared {
    /// The file's superblock.
    pub(crate) root: Super,
    /// How many bytes the file may have at most, and how many of a dataset may wait unwritten.
    pub(crate) limit: u64,
    pub(crate) budget: u64,
}

/// A dataset of a form, wherever its index stands, and how many bytes its header has.
#[derive(Clone, Copy)]
struct Mold {
    form: Form,
    grid: Grid,
    header_len: u64,
}

/// What a dataset of this form is made by.
fn mold_of(alloc: Global, form: &Form) -> Result<Mold, OutOfMemory>
    requires { IsForm form.now }
    ensures mold { IfOk result IsMold }
    ensures form { IfOk result (λ mold. mold.form ≡ form.now) }
{
    let one = create_file(alloc, b"a", form)?;
    Ok(Mold {
        form: *form,
        grid: one.grid,
        header_len: one.header.len() as u64,
    })
}

/// The session over the dataset of this name, whose header stands at `place`: the superblock is pending.
fn part_at(
    alloc: Global,
    name: &[u8],
    mold: &Mold,
    shared: &Shared,
    place: u64,
) -> Result<WriterCore, OutOfMemory>
    requires mold { IsMold mold.now }
    requires shared { IsShared shared.now }
    requires name { HasRoom name.now }
    requires begun { 48 ≤ place }
    requires ends { end_behind place (created_by name.now mold.now.form) ≤ shared.now.root.end }
    ensures { IfOk result (IsPartOver shared.now place (created_by name.now mold.now.form)) }
{
    let address = place + mold.header_len;
    let grid = Grid {
        layout: Layout {
            address,
            ..mold.grid.layout
        },
        ..mold.grid
    };
    // the pieces of its index are among those of the creation
    let mut writes = Vec::new(alloc);
    let index = new_index(
        alloc,
        mold.form.index,
        address,
        address + ARRAY_LEN,
        &mut writes,
    )?;
    let file = FileParts {
        root: shared.root,
        place,
        header: dataset_header(alloc, &grid)?,
        grid,
        index,
    };
    WriterCore::over(alloc, name, file, shared.limit, shared.budget)
}

/// Puts the sessions over the datasets of these names, each by the form at its place, behind others. The first has its
/// header at `place`.
pub(crate) fn add_parts(
    alloc: Global,
    names: &[Bytes],
    forms: &[Form],
    shared: &Shared,
    place: u64,
    parts: &mut Vec<WriterCore>,
) -> Result<(), OutOfMemory>
    requires shared { IsShared shared.now }
    requires names { AllByRecursion HasRoom names.now }
    requires forms { AllByRecursion IsForm forms.now }
    requires begun { 48 ≤ place }
    requires ends { end_from place (each_by names.now forms.now) ≤ shared.now.root.end }
    ensures { OnOk result (AddsParts shared.now place (each_by names.now forms.now) parts.old.items parts.new.items) }
{
    let (Some((name, rest)), Some((form, others))) = (names.split_first(), forms.split_first())
    else {
        return Ok(());
    };
    let mold = mold_of(alloc, form)?;
    parts.push(part_at(alloc, name.as_slice(), &mold, shared, place)?)?;
    let next = place + mold.header_len + index_len(form.index);
    add_parts(alloc, rest, others, shared, next, parts)
}
